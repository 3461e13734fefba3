// A line of a script, read into what it asks. Each field goes through the field reader to the number reader: there is no second parser.
#![tactic(auto)]

ghost use Rattle.std.specs.Prelude.{◌≡◌, drop};
ghost use Rattle.std.proofs.Math.Option.{some};
ghost use Rattle.text.specs.Prefixes.{upto};
ghost use Rattle.text.specs.Lines.{line_at};
ghost use Rattle.text.specs.LineFields.{fields_after};
ghost use Rattle.history.specs.Calls.{ask, wait, depart};
ghost use Rattle.script_rules.specs.Reading.{command_in};
ghost use Rattle.desk_lines.specs.DeskLine.{with_kind, kind_of, opening_in};
ghost use Rattle.script_reading.specs.declared.Asked.TheVariants.{Malformed};
ghost use Rattle.script_reading.specs.Meaning.{opens, asks, follows, form_from, when_read, opening_of};
ghost use Rattle.script_reading.specs.LineReading.{UpTo};
ghost use Rattle.script_reading.specs.CommandFields.{one_number_of, order_for, most_with, order_by};

use scheduler::{Departure, Kind, Opening, Request, Scheduler, Settings, Submission, Tenant};
use text::{Line, Numbers};

// What a later line asks.
// Kept: a call and a wait are two answers of one rank with a line that lacks the form, and `Row` and `Later` give an end beside each of the three.
#[derive(Clone, Copy)]
pub enum Asked {
    Call(Request),
    Wait(u32),
    Malformed,
}

// Whether a line has `fields` fields and begins with `word`; `count` is how many fields it has, and `first` is its first field. A trailing tab
// makes one more field.
fn has_form(count: usize, first: &[u8], fields: usize, word: &[u8]) -> bool
    ensures { result ≡ form_from count first.now fields word.now }
{
    count == fields && text::is_word(first, word)
}

// Which rules a word names.
pub fn read_kind(part: &[u8]) -> Option<Kind>
    ensures { follows result ≡ kind_of part.now }
{
    if text::is_word(part, b"promise") {
        return Some(Kind::Conservative);
    }
    text::is_word(part, b"loose").then_some(Kind::Easy)
}

fn opening(kind: Option<Kind>, given: Numbers) -> Option<Opening>
    ensures { opens result ≡ with_kind (follows kind) (λ k. when_read 6 given (opening_of k)) }
{
    let kind = kind?;
    if given.count < 6 {
        return None;
    }
    let [nodes, minute, ticket, cleanup, quota_a, quota_b, ..] = given.values;
    Some(Opening {
        settings: Settings {
            kind,
            nodes,
            cleanup,
            quota_a,
            quota_b,
            longest: Scheduler::LONGEST_ESTIMATE,
        },
        minute,
        ticket,
    })
}

// The first line opens a desk: its kind, nodes, minute and ticket, its cleanup, and the quotas of both tenants. None: it lacks the form.
pub fn read_first(line: &[u8]) -> Option<Opening>
    ensures { opens result ≡ opening_in line.now }
{
    let count = text::field_count(line);
    let first = text::field(line, 0);
    if !has_form(count, first, 8, b"desk") {
        return None;
    }
    let kind = read_kind(text::field(line, 1));
    opening(kind, text::field_numbers(line, 2))
}

// What the fields of a later line ask, as far as they were read: up to a place of the line.
#[derive(Clone, Copy)]
struct Row {
    asked: Asked,
    end: usize,
}

impl Row {
    fn malformed(end: usize) -> Row
        ensures { result ≡ record { asked = Malformed; end = end } }
    {
        Row {
            asked: Asked::Malformed,
            end,
        }
    }
}

// An order of the house with this letter.
fn order(letter: u32, nodes: u32, least: u32, most: u32) -> Asked
    ensures { asks result ≡ some (order_for nodes least most letter) }
{
    Asked::Call(Request::Submit(Submission {
        nodes,
        estimate: most,
        tenant: Tenant::of_letter(letter),
        least,
    }))
}

// After the nodes and the least minutes: the most, and the house.
fn submission_between(nodes: u32, least: u32, script: &[u8], end: usize) -> Row
    ensures { UpTo script.now end (most_with nodes least (fields_after script.now end)) (asks result.asked) result.end }
{
    let a = text::number_after(script, end);
    let Some(most) = a.said else {
        return Row::malformed(a.end);
    };
    let h = text::capital_after(script, a.end);
    let Some(letter) = h.said else {
        return Row::malformed(h.end);
    };
    Row {
        asked: order(letter, nodes, least, most),
        end: h.end,
    }
}

// After `in`: the nodes, the minutes and the house. With one number of minutes the least is 0.
fn submission(script: &[u8], end: usize) -> Row
    ensures { UpTo script.now end (order_by (fields_after script.now end)) (asks result.asked) result.end }
{
    let a = text::number_after(script, end);
    let Some(nodes) = a.said else {
        return Row::malformed(a.end);
    };
    let b = text::number_after(script, a.end);
    let Some(minutes) = b.said else {
        return Row::malformed(b.end);
    };
    let h = text::capital_after(script, b.end);
    let Some(letter) = h.said else {
        return submission_between(nodes, minutes, script, b.end);
    };
    Row {
        asked: order(letter, nodes, 0, minutes),
        end: h.end,
    }
}

// After `end` or `drop`: the ticket.
fn departure(how: Departure, script: &[u8], end: usize) -> Row
    ensures { UpTo script.now end (one_number_of (λ t. ask (depart how t)) (fields_after script.now end)) (asks result.asked) result.end }
{
    let a = text::number_after(script, end);
    let Some(ticket) = a.said else {
        return Row::malformed(a.end);
    };
    Row {
        asked: Asked::Call(Request::Depart(how, ticket)),
        end: a.end,
    }
}

// After `wait`: the minutes.
fn waiting(script: &[u8], end: usize) -> Row
    ensures { UpTo script.now end (one_number_of wait (fields_after script.now end)) (asks result.asked) result.end }
{
    let a = text::number_after(script, end);
    let Some(minutes) = a.said else {
        return Row::malformed(a.end);
    };
    Row {
        asked: Asked::Wait(minutes),
        end: a.end,
    }
}

// A later line submits a job, completes or withdraws one, or waits: the word, and the fields after it.
fn read_row(script: &[u8], at: usize) -> Row
    ensures { UpTo script.now at (command_in (upto 10 (drop at script.now))) (asks result.asked) result.end }
{
    if text::word_at(script, at, b"in") {
        return submission(script, at + 2);
    }
    if text::word_at(script, at, b"end") {
        return departure(Departure::Complete, script, at + 3);
    }
    if text::word_at(script, at, b"wait") {
        return waiting(script, at + 4);
    }
    if text::word_at(script, at, b"drop") {
        return departure(Departure::Cancel, script, at + 4);
    }
    Row::malformed(at)
}

// A later line, and where it ends.
#[derive(Clone, Copy)]
pub struct Later {
    pub asked: Asked,
    pub line: Line,
}

// The later line at a place, read from field to field. One with more fields lacks the form, a trailing tab being a field more.
pub fn read_later(script: &[u8], at: usize) -> Later
    ensures { (result.line ≡ line_at script.now at) × (asks result.asked ≡ command_in (upto 10 (drop at script.now))) }
{
    let row = read_row(script, at);
    let line = text::next_line(script, row.end);
    let asked = if line.end == row.end {
        row.asked
    } else {
        Asked::Malformed
    };
    Later { asked, line }
}
