// A season's list, read line by line: its first line into an opening, each later one into an arrival.
#![tactic(auto)]

ghost use Rattle.std.specs.Prelude.{◌≡◌, suc, min, ◌≤◌, length};
ghost use Rattle.desk_lines.specs.DeskLine.{with_kind};
ghost use Rattle.script_reading.specs.Meaning.{opens, follows, when_read};
ghost use Rattle.season_rules.specs.Reading.{most_lines, opening_in};
ghost use Rattle.season_rules.specs.Season.{arrival_refusal};
ghost use Rattle.season_reading.specs.declared.Listed.TheVariants.{Malformed};
ghost use Rattle.season_reading.specs.Meaning.{opening_of, Reads};
ghost use Rattle.season_reading.specs.ArrivalFields.{Lists};

use scheduler::{Kind, Opening, Refusal, Scheduler, Settings};
use season_rules::Arrival;
use text::Numbers;

// Lines past these lack the form.
const MOST_LINES: usize = 4096;

// What stands next in a list: an arrival, a line that lacks the form, or nothing.
// Kept: three cases of one rank, of which `season_turns` asks one after the other: an `Option` of a `Result` is no plainer.
#[derive(Clone, Copy)]
pub enum Listed {
    Is(Arrival),
    Malformed,
    None,
}

// What stands next, and where the line after it begins.
#[derive(Clone, Copy)]
pub struct Ahead {
    pub listed: Listed,
    pub next: usize,
}

fn opening(kind: Option<Kind>, given: Numbers) -> Option<Opening>
    ensures { opens result ≡ with_kind (follows kind) (λ k. when_read 3 given (opening_of k)) }
{
    let kind = kind?;
    if given.count < 3 {
        return None;
    }
    let [nodes, cleanup, longest, ..] = given.values;
    Some(Opening {
        settings: Settings {
            kind,
            nodes,
            cleanup,
            quota_a: 63,
            quota_b: 1,
            longest,
        },
        minute: 0,
        ticket: 1,
    })
}

// The first line has the settings: the kind, the nodes, the cleanup and the longest estimate.
pub fn read_settings(line: &[u8]) -> Option<Opening>
    ensures { opens result ≡ opening_in line.now }
{
    if text::field_count(line) != 4 {
        return None;
    }
    let kind = script_reading::read_kind(text::field(line, 0));
    opening(kind, text::field_numbers(line, 1))
}

// What the fields of a line list, as far as they were read: up to a place of the line.
#[derive(Clone, Copy)]
struct Row {
    listed: Listed,
    end: usize,
}

impl Row {
    fn malformed(end: usize) -> Row
        ensures { result ≡ record { listed = Malformed; end = end } }
    {
        Row {
            listed: Listed::Malformed,
            end,
        }
    }
}

// The fields of the line at a place: four numbers.
fn read_arrival(list: &[u8], at: usize) -> Row
    requires { at ≤ length list.now }
    ensures { Lists list.now at result }
{
    let a = text::number_at(list, at);
    let Some(minute) = a.said else {
        return Row::malformed(a.end);
    };
    let b = text::number_after(list, a.end);
    let Some(nodes) = b.said else {
        return Row::malformed(b.end);
    };
    let c = text::number_after(list, b.end);
    let Some(estimate) = c.said else {
        return Row::malformed(c.end);
    };
    let d = text::number_after(list, c.end);
    let Some(actual) = d.said else {
        return Row::malformed(d.end);
    };
    Row {
        listed: Listed::Is(Arrival {
            minute,
            nodes,
            estimate,
            actual,
        }),
        end: d.end,
    }
}

// One line more, counted up to the limit.
pub fn one_more(above: usize) -> usize
    ensures { result ≡ min (suc above) most_lines }
{
    above.saturating_add(1).min(MOST_LINES)
}

// The line at a place, with `above` lines of the list above it. A line with more fields lacks the form, and so does an unclosed one.
pub fn read_ahead(list: &[u8], at: usize, above: usize) -> Ahead
    ensures { Reads list.now at above result }
{
    if list.len() <= at {
        return Ahead {
            listed: Listed::None,
            next: at,
        };
    }
    let row = read_arrival(list, at);
    let line = text::next_line(list, row.end);
    if !line.closed {
        return Ahead {
            listed: Listed::Malformed,
            next: line.end,
        };
    }
    let listed = if above < MOST_LINES && line.end == row.end {
        row.listed
    } else {
        Listed::Malformed
    };
    Ahead {
        listed,
        next: line.end + 1,
    }
}

// Why an arrival is refused before its minute, given the highest arrival of the lines above.
pub fn arrival_refusal(a: Arrival, highest: u32) -> Refusal
    ensures { result ≡ arrival_refusal highest a }
{
    if a.minute < highest {
        return Refusal::ArrivalFalls;
    }
    if a.actual == 0 {
        return Refusal::NoRunLength;
    }
    if Scheduler::HORIZON < a.minute {
        return Refusal::PastHorizon;
    }
    Refusal::None
}
