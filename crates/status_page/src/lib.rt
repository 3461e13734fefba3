// The status page of a scheduler (document 02, No. 8: "the board in the corridor"), written into a page of bytes: the heading, a line for each
// slot, and one more line. The line of an unused slot has only spaces.
#![tactic(auto)]

ghost use mathlib.Core.List.{[], ◌∷◌, ◌++◌, flat_map};
ghost use Rattle.std.specs.Prelude.{◌+◌, ◌≤◌, length, replicate};
ghost use Rattle.lists.specs.Lists.{All};
ghost use Rattle.text.specs.RightSet.{space, right_set};
ghost use Rattle.text.specs.WrittenBytes.{Wrote};
ghost use Rattle.scheduler.specs.Tenants.{letter_of};
ghost use Rattle.scheduler.specs.Model.{view};
ghost use Rattle.guarantees.specs.Premise.{Premise};
ghost use Rattle.status_page_rules.specs.StatusPage.{column, heading, state_word, promised, start_text, job_columns_of, set_right, line, status_page_of};
ghost use Rattle.status_page_laws.specs.Columns.{Fits, Fitting};
ghost use Rattle.status_page_laws.specs.Pages.{line_bytes, page_bytes};
ghost use Rattle.status_page.specs.JobLines.{order_columns, minute_columns};
ghost use Rattle.status_page.specs.SlotLines.{slot_columns};

use scheduler::{Job, Kind, Scheduler, Settings, State, Tenant};

// The bytes of a page.
pub const PAGE: usize = 4818;

const COLUMNS: usize = 72;

const NEWLINE: u8 = 10;

// Each writer writes at a place, where the page has room, and gives back the place after what it wrote. This one writes `columns` spaces and the
// line's end.
fn put_rest(page: &mut [u8], at: usize, columns: usize) -> usize
    requires { at + (columns + 1) ≤ length page.old }
    ensures { Wrote (columns + 1) page.old at (replicate columns space ++ (10 ∷ [])) page.new result }
{
    let p = text::put_spaces(page, at, columns);
    text::put_byte(page, p, NEWLINE)
}

fn put_heading(page: &mut [u8], at: usize, nodes: u32, clock: u32, next: u32) -> usize
    requires { Fitting (heading nodes clock next) × (at + line_bytes ≤ length page.old) }
    ensures { Wrote line_bytes page.old at (line (heading nodes clock next)) page.new result }
{
    let a = text::put_number_right(page, at, 8, nodes);
    let b = text::put_number_right(page, a, 8, clock);
    let c = text::put_number_right(page, b, 8, next);
    put_rest(page, c, 48)
}

fn put_tenant(page: &mut [u8], at: usize, tenant: Tenant) -> usize
    requires { at + 2 ≤ length page.old }
    ensures { Wrote 2 page.old at (right_set 2 (letter_of tenant ∷ [])) page.new result }
{
    let letter = tenant.letter() as u8;
    text::put_word_right(page, at, 2, &[letter])
}

// A minute that a kind promises: EASY promises none.
fn put_promised(page: &mut [u8], at: usize, kind: Kind, minute: u32) -> usize
    requires { Fits (column 8 (promised kind minute)) × (at + 8 ≤ length page.old) }
    ensures { Wrote 8 page.old at (right_set 8 (promised kind minute)) page.new result }
{
    match kind {
        Kind::Conservative => text::put_number_right(page, at, 8, minute),
        Kind::Easy => text::put_word_right(page, at, 8, b"-"),
    }
}

// A start; while the job waits, it is one that the kind promises.
fn put_start(page: &mut [u8], at: usize, kind: Kind, waits: bool, minute: u32) -> usize
    requires { Fits (column 8 (start_text kind waits minute)) × (at + 8 ≤ length page.old) }
    ensures { Wrote 8 page.old at (right_set 8 (start_text kind waits minute)) page.new result }
{
    if waits {
        return put_promised(page, at, kind, minute);
    }
    text::put_number_right(page, at, 8, minute)
}

fn put_state(page: &mut [u8], at: usize, state: State) -> usize
    requires { at + 10 ≤ length page.old }
    ensures { Wrote 10 page.old at (right_set 10 (state_word state)) page.new result }
{
    match state {
        State::Unused => text::put_word_right(page, at, 10, b""),
        State::Waiting => text::put_word_right(page, at, 10, b"waiting"),
        State::Running => text::put_word_right(page, at, 10, b"running"),
        State::Cleanup => text::put_word_right(page, at, 10, b"clearing"),
    }
}

// What was ordered: the ticket, the house and the nodes.
fn put_order(page: &mut [u8], at: usize, j: Job) -> usize
    requires { All Fits (order_columns j) × (at + 14 ≤ length page.old) }
    ensures { Wrote 14 page.old at (flat_map set_right (order_columns j)) page.new result }
{
    let a = text::put_number_right(page, at, 7, j.ticket);
    let b = put_tenant(page, a, j.tenant);
    text::put_number_right(page, b, 5, j.nodes as u32)
}

// Its start and its promise, and for how long it runs.
fn put_minutes(page: &mut [u8], at: usize, settings: Settings, j: Job) -> usize
    requires { All Fits (minute_columns settings j) × (at + 22 ≤ length page.old) }
    ensures { Wrote 22 page.old at (flat_map set_right (minute_columns settings j)) page.new result }
{
    let kind = settings.kind;
    let waits = j.is_waiting();
    let held = settings.run_time(j.estimate as u32);
    let a = put_start(page, at, kind, waits, j.start);
    let b = put_promised(page, a, kind, j.promise);
    text::put_number_right(page, b, 6, held)
}

// The line of a live job.
fn put_job(page: &mut [u8], at: usize, settings: Settings, j: Job) -> usize
    requires { Fitting (job_columns_of settings j) × (at + line_bytes ≤ length page.old) }
    ensures { Wrote line_bytes page.old at (line (job_columns_of settings j)) page.new result }
{
    let a = put_order(page, at, j);
    let b = put_minutes(page, a, settings, j);
    let c = put_state(page, b, j.state);
    put_rest(page, c, 26)
}

// The line of a slot.
fn put_slot(page: &mut [u8], at: usize, settings: Settings, j: Job) -> usize
    requires { Fitting (slot_columns settings j) × (at + line_bytes ≤ length page.old) }
    ensures { Wrote line_bytes page.old at (line (slot_columns settings j)) page.new result }
{
    if j.is_live() {
        return put_job(page, at, settings, j);
    }
    put_rest(page, at, COLUMNS)
}

// The page, from the first byte on.
pub fn put_page(page: &mut [u8], d: Scheduler) -> usize
    requires { Premise d × (page_bytes ≤ length page.old) }
    ensures { Wrote page_bytes page.old 0 (status_page_of (view d)) page.new result }
{
    let settings = d.settings;
    let mut at = put_heading(page, 0, d.settings.nodes, d.clock, d.next);
    for &j in &d.jobs {
        at = put_slot(page, at, settings, j);
    }
    put_rest(page, at, COLUMNS)
}
