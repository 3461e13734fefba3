// A scheduler written out (document 02, No. 11): its lines, written into a page of bytes with room for the longest.
#![tactic(auto)]

ghost use Rattle.std.specs.Prelude.{[], ◌∷◌, ◌+◌, ◌≤◌, length};
ghost use Rattle.text.specs.Numbers.{decimal_of};
ghost use Rattle.text.specs.WrittenBytes.{Wrote};
ghost use Rattle.scheduler.specs.Tenants.{letter_of};
ghost use Rattle.scheduler.specs.Model.{view};
ghost use Rattle.desk_lines.specs.DeskLine.{and_field};
ghost use Rattle.guarantees.specs.Premise.{Premise};
ghost use Rattle.checkpoint_rules.specs.Texts.{state_word, desk_text};
ghost use Rattle.checkpoint_writing.specs.TextParts.{head_text, desk_line_of, order_text, times_text, kept_text, job_text, slot_text};
ghost use Rattle.checkpoint_writing.specs.TextSize.{text_bytes};

use scheduler::{Job, Kind, Scheduler, Settings, State, Tenant};

// The bytes for which a page has to have room.
pub const PAGE: usize = 7375;

const TAB: u8 = 9;

// Each writer writes at a place, where the page has room for the most that it writes, and gives back the place after what it wrote.
fn put_head(page: &mut [u8], at: usize, kind: Kind) -> usize
    requires { at + 12 ≤ length page.old }
    ensures { Wrote 12 page.old at (head_text kind) page.new result }
{
    match kind {
        Kind::Conservative => text::put_word(page, at, b"desk\tpromise"),
        Kind::Easy => text::put_word(page, at, b"desk\tloose"),
    }
}

fn put_desk(page: &mut [u8], at: usize, settings: Settings, clock: u32, next: u32) -> usize
    requires { at + 79 ≤ length page.old }
    ensures { Wrote 79 page.old at (desk_line_of settings clock next) page.new result }
{
    let a = put_head(page, at, settings.kind);
    let b = script_writing::put_field(page, a, settings.nodes);
    let c = script_writing::put_field(page, b, clock);
    let d = script_writing::put_field(page, c, next);
    let e = script_writing::put_field(page, d, settings.cleanup);
    let f = script_writing::put_field(page, e, settings.quota_a);
    script_writing::put_last(page, f, settings.quota_b)
}

fn put_state(page: &mut [u8], at: usize, state: State) -> usize
    requires { at + 2 ≤ length page.old }
    ensures { Wrote 2 page.old at (and_field (state_word state)) page.new result }
{
    match state {
        State::Unused => text::put_word(page, at, b"\t"),
        State::Waiting => text::put_word(page, at, b"\tw"),
        State::Running => text::put_word(page, at, b"\tr"),
        State::Cleanup => text::put_word(page, at, b"\tc"),
    }
}

fn put_tenant(page: &mut [u8], at: usize, tenant: Tenant) -> usize
    requires { at + 2 ≤ length page.old }
    ensures { Wrote 2 page.old at (and_field (letter_of tenant ∷ [])) page.new result }
{
    let letter = tenant.letter() as u8;
    text::put_word(page, at, &[TAB, letter])
}

// The first field of a line.
fn put_first(page: &mut [u8], at: usize, v: u32) -> usize
    requires { at + 10 ≤ length page.old }
    ensures { Wrote 10 page.old at (decimal_of v) page.new result }
{
    text::put_number(page, at, v)
}

// The ticket, the nodes, the estimate and the state.
fn put_order(page: &mut [u8], at: usize, j: Job) -> usize
    requires { at + 34 ≤ length page.old }
    ensures { Wrote 34 page.old at (order_text j) page.new result }
{
    let a = put_first(page, at, j.ticket);
    let b = script_writing::put_field(page, a, j.nodes as u32);
    let c = script_writing::put_field(page, b, j.estimate as u32);
    put_state(page, c, j.state)
}

// The start, the promise, the end, the house and the least.
fn put_times(page: &mut [u8], at: usize, j: Job) -> usize
    requires { at + 46 ≤ length page.old }
    ensures { Wrote 46 page.old at (times_text j) page.new result }
{
    let a = script_writing::put_field(page, at, j.start);
    let b = script_writing::put_field(page, a, j.promise);
    let c = script_writing::put_field(page, b, j.end);
    let d = put_tenant(page, c, j.tenant);
    script_writing::put_field(page, d, j.least as u32)
}

// What EASY keeps of it.
fn put_kept(page: &mut [u8], at: usize, j: Job) -> usize
    requires { at + 34 ≤ length page.old }
    ensures { Wrote 34 page.old at (kept_text j) page.new result }
{
    let a = script_writing::put_field(page, at, j.submitted);
    let b = script_writing::put_field(page, a, j.rank);
    script_writing::put_last(page, b, j.forecast)
}

fn put_job(page: &mut [u8], at: usize, j: Job) -> usize
    requires { at + 114 ≤ length page.old }
    ensures { Wrote 114 page.old at (job_text j) page.new result }
{
    let a = put_order(page, at, j);
    let b = put_times(page, a, j);
    put_kept(page, b, j)
}

// The line of a slot: an unused one has none.
fn put_slot(page: &mut [u8], at: usize, j: Job) -> usize
    requires { at + 114 ≤ length page.old }
    ensures { Wrote 114 page.old at (slot_text j) page.new result }
{
    if j.is_live() {
        return put_job(page, at, j);
    }
    at
}

// The lines of a scheduler, from the first byte on.
pub fn put_text(page: &mut [u8], d: Scheduler) -> usize
    requires { Premise d × (text_bytes ≤ length page.old) }
    ensures { Wrote text_bytes page.old 0 (desk_text (view d)) page.new result }
{
    let mut at = put_desk(page, 0, d.settings, d.clock, d.next);
    for &j in &d.jobs {
        at = put_slot(page, at, j);
    }
    at
}
