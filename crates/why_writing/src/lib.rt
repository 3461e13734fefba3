// Why each waiting job waits (document 02, No. 14: "Why is mine waiting?"), written into a page of bytes with room for the longest text. The plan is
// surveyed into lists of numbers once, and the sentences are written from these.
#![tactic(auto)]

ghost use Rattle.std.specs.Prelude.{◌≡◌, true, ◌≤◌, length};
ghost use Rattle.text.specs.WrittenBytes.{Wrote};
ghost use Rattle.scheduler.specs.Limits.{slots};
ghost use Rattle.scheduler.specs.Jobs.{is_waiting};
ghost use Rattle.scheduler.specs.Table.{ticket_of};
ghost use Rattle.scheduler.specs.Model.{view};
ghost use Rattle.jobs.specs.Soundness.{Sound};
ghost use Rattle.jobs.specs.Premise.{Holds};
ghost use Rattle.conservative_laws.specs.Validity.{Valid};
ghost use Rattle.job_columns.specs.Columns.{Column, Blank};
ghost use Rattle.guarantees.specs.Premise.{Premise};
ghost use Rattle.why_rules.specs.Why.{findings, sentences, why_text};
ghost use Rattle.why_laws.specs.Sizes.{why_bytes};
ghost use Rattle.why_writing.specs.ExactText.{Room, Writes};
ghost use Rattle.why_writing.specs.ListedText.{pair_text, row_text, rows_text, listed_text, slot_text};

use plan_acceptance::Survey;
use scheduler::{Job, Kind, Scheduler};

// The bytes for which a page has to have room.
pub const PAGE: usize = 74752;

const NEWLINE: u8 = 10;

// Each writer writes at a place, where the page has room for exactly what it writes, and gives back the place after it. This one writes a word and
// a number, twice.
fn put_pair(page: &mut [u8], at: usize, first: &[u8], v: u32, second: &[u8], w: u32) -> usize
    requires { Room page.old at (pair_text first.now v second.now w) }
    ensures { Writes page.old at (pair_text first.now v second.now w) page.new result }
{
    let a = text::put_word(page, at, first);
    let b = text::put_number(page, a, v);
    let c = text::put_word(page, b, second);
    text::put_number(page, c, w)
}

// A holder, if its nodes are taken in this minute.
fn put_row(
    page: &mut [u8],
    at: usize,
    minute: u32,
    ticket: u32,
    nodes: u32,
    from: u32,
    until: u32,
) -> usize
    requires { Room page.old at (row_text minute ticket nodes from until) }
    ensures { Writes page.old at (row_text minute ticket nodes from until) page.new result }
{
    if minute < from {
        return at;
    }
    if minute < until {
        return put_pair(page, at, b", ", ticket, b" with ", nodes);
    }
    at
}

// The holders in a minute, of the plan that the lists have.
fn put_holders(page: &mut [u8], at: usize, minute: u32, tickets: &[u32; 64], plan: &Survey) -> usize
    requires { (plan.now.count ≤ slots) × Room page.old at (rows_text minute tickets.now plan.now.held plan.now.froms plan.now.untils plan.now.count) }
    ensures { Writes page.old at (rows_text minute tickets.now plan.now.held plan.now.froms plan.now.untils plan.now.count)
        page.new result }
{
    let mut p = at;
    for i in 0..plan.count {
        p = put_row(
            page,
            p,
            minute,
            tickets[i],
            plan.held[i],
            plan.froms[i],
            plan.untils[i],
        );
    }
    p
}

// The sentence for a job with this ticket, about this minute.
fn put_sentence(
    page: &mut [u8],
    at: usize,
    ticket: u32,
    minute: u32,
    tickets: &[u32; 64],
    plan: &Survey,
) -> usize
    requires { (plan.now.count ≤ slots) × Room page.old at (listed_text ticket minute tickets.now plan.now.held plan.now.froms plan.now.untils plan.now.count) }
    ensures { Writes page.old at
        (listed_text ticket minute tickets.now plan.now.held plan.now.froms plan.now.untils plan.now.count) page.new result }
{
    let a = put_pair(page, at, b"stack ", ticket, b" waits, minute ", minute);
    let b = put_holders(page, a, minute, tickets, plan);
    text::put_byte(page, b, NEWLINE)
}

// The sentence of a slot: only a waiting job has one, about the minute just before its start.
fn put_slot(page: &mut [u8], at: usize, j: Job, tickets: &[u32; 64], plan: &Survey) -> usize
    requires { (plan.now.count ≤ slots) × (is_waiting j ≡ true → 1 ≤ j.start)
        × Room page.old at (slot_text tickets.now plan.now.held plan.now.froms plan.now.untils plan.now.count j) }
    ensures { Writes page.old at (slot_text tickets.now plan.now.held plan.now.froms plan.now.untils plan.now.count j)
        page.new result }
{
    if j.is_waiting() {
        return put_sentence(page, at, j.ticket, j.start - 1, tickets, plan);
    }
    at
}

// The tickets of the first `count` live jobs, in order.
fn survey_tickets(d: Scheduler, tickets: &mut [u32; 64], count: usize)
    requires { Holds Sound d × Blank tickets.old × (length (view d).jobs ≡ count) }
    ensures { Column ticket_of (view d).jobs tickets.new }
{
    for i in 0..count {
        tickets[i] = d.jobs[i].ticket;
    }
}

// The sentences of a conservative scheduler, from the first byte on.
fn put_sentences(page: &mut [u8], d: Scheduler) -> usize
    requires { Holds Valid d × (why_bytes ≤ length page.old) }
    ensures { Writes page.old 0 (sentences (findings (view d))) page.new result }
{
    let mut tickets = [0u32; 64];
    let plan = Survey::of(d);
    survey_tickets(d, &mut tickets, plan.count);
    let mut at: usize = 0;
    for &j in &d.jobs[..plan.count] {
        at = put_slot(page, at, j, &tickets, &plan);
    }
    at
}

// Why each waiting job waits, from the first byte on. EASY writes nothing.
pub fn put_why(page: &mut [u8], d: Scheduler) -> usize
    requires { Premise d × (why_bytes ≤ length page.old) }
    ensures { Wrote why_bytes page.old 0 (why_text (view d)) page.new result }
{
    let settings = d.settings;
    let kind = settings.kind;
    match kind {
        Kind::Conservative => put_sentences(page, d),
        Kind::Easy => 0,
    }
}
