// The lines of an answer, written into a page of bytes.
#![tactic(auto)]

ghost use Rattle.std.specs.Prelude.{◌≡◌, [], ◌∷◌, ◌++◌, ◌+◌, ◌*◌, ◌≤◌, length};
ghost use Rattle.text.specs.Numbers.{decimal_of};
ghost use Rattle.scheduler.specs.Answers.{code};
ghost use Rattle.script_rules.specs.Writing.{row, no_row, rows_of, promise_field};
ghost use Rattle.desk_lines.specs.DeskLine.{and_field};
ghost use Rattle.script_writing.specs.AnswerText.{page_bytes, promises, took_text, head_text, taken_text, answer_text};
ghost use Rattle.text.specs.WrittenBytes.{Wrote};

use scheduler::{Answer, Kind, Refusal};

// The bytes of the longest answer.
pub const PAGE: usize = 3574;

const TAB: u8 = 9;

const NEWLINE: u8 = 10;

pub fn page_len() -> usize
    ensures { result ≡ page_bytes }
{
    PAGE
}

// Whether a promise is printed: EASY makes none.
fn promises(kind: Kind) -> bool
    ensures { result ≡ promises kind }
{
    matches!(kind, Kind::Conservative)
}

// Each writer writes at a place, where the page has room for the most that it writes, and gives back the place after what it wrote.
pub fn put_field(page: &mut [u8], at: usize, v: u32) -> usize
    requires { at + 11 ≤ length page.old }
    ensures { Wrote 11 page.old at (and_field (decimal_of v)) page.new result }
{
    let p = text::put_byte(page, at, TAB);
    text::put_number(page, p, v)
}

// The last field of a line, and the line's end.
pub fn put_last(page: &mut [u8], at: usize, v: u32) -> usize
    requires { at + 12 ≤ length page.old }
    ensures { Wrote 12 page.old at (and_field (decimal_of v) ++ (10 ∷ [])) page.new result }
{
    let p = put_field(page, at, v);
    text::put_byte(page, p, NEWLINE)
}

fn put_row(page: &mut [u8], at: usize, word: &[u8], a: u32, b: u32) -> usize
    requires { at + (length word.now + 23) ≤ length page.old }
    ensures { Wrote (length word.now + 23) page.old at (row word.now (decimal_of a) (decimal_of b))
        page.new result }
{
    let p = text::put_word(page, at, word);
    let q = put_field(page, p, a);
    put_last(page, q, b)
}

// A line for each ticket.
fn put_rows(page: &mut [u8], at: usize, word: &[u8], minute: u32, tickets: &[u32]) -> usize
    requires { at + (length word.now + 23) * length tickets.now ≤ length page.old }
    ensures { Wrote ((length word.now + 23) * length tickets.now)
        page.old at (rows_of word.now minute tickets.now) page.new result }
{
    let mut p = at;
    for &ticket in tickets {
        p = put_row(page, p, word, ticket, minute);
    }
    p
}

// The promise, which is the last field of its line.
fn put_promise(page: &mut [u8], at: usize, kind: Kind, promise: u32) -> usize
    requires { at + 12 ≤ length page.old }
    ensures { Wrote 12 page.old at (and_field (promise_field kind promise) ++ (10 ∷ [])) page.new result }
{
    if promises(kind) {
        return put_last(page, at, promise);
    }
    text::put_word(page, at, b"\t-\n")
}

fn put_took(page: &mut [u8], at: usize, kind: Kind, ticket: u32, promise: u32) -> usize
    requires { at + 27 ≤ length page.old }
    ensures { Wrote 27 page.old at (took_text kind ticket promise) page.new result }
{
    if ticket == 0 {
        return at;
    }
    let p = text::put_word(page, at, b"took");
    let q = put_field(page, p, ticket);
    put_promise(page, q, kind, promise)
}

fn put_head(page: &mut [u8], at: usize, head: u32, forecast: u32) -> usize
    requires { at + 27 ≤ length page.old }
    ensures { Wrote 27 page.old at (head_text head forecast) page.new result }
{
    if head == 0 {
        return at;
    }
    put_row(page, at, b"head", head, forecast)
}

fn put_taken(page: &mut [u8], at: usize, kind: Kind, minute: u32, a: Answer) -> usize
    requires { (a.ended.count ≤ 64) × (a.started.count ≤ 64) × (at + page_bytes ≤ length page.old) }
    ensures { Wrote page_bytes page.old at (taken_text kind minute a) page.new result }
{
    let ended = &a.ended.list[..a.ended.count];
    let started = &a.started.list[..a.started.count];
    let p = put_took(page, at, kind, a.ticket, a.promise);
    let q = put_rows(page, p, b"over", minute, ended);
    let s = put_rows(page, q, b"start", minute, started);
    put_head(page, s, a.head, a.forecast)
}

// The line of a refused call.
pub fn put_refusal(page: &mut [u8], at: usize, r: Refusal) -> usize
    requires { at + page_bytes ≤ length page.old }
    ensures { Wrote page_bytes page.old at (no_row (code r)) page.new result }
{
    let p = text::put_word(page, at, b"no");
    put_last(page, p, r.code())
}

// The lines of an answer, with the clock after the call.
pub fn put_answer(page: &mut [u8], at: usize, kind: Kind, minute: u32, a: Answer) -> usize
    requires { (a.ended.count ≤ 64) × (a.started.count ≤ 64) × (at + page_bytes ≤ length page.old) }
    ensures { Wrote page_bytes page.old at (answer_text kind minute a) page.new result }
{
    if a.refusal.is_none() {
        return put_taken(page, at, kind, minute, a);
    }
    put_refusal(page, at, a.refusal)
}
