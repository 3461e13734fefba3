// The part that a call does on the columns that both kinds have, and what a call tells.
#![tactic(auto)]

ghost use Rattle.std.specs.Prelude.{◌≡◌, true, false, List, ℕ, ◌-◌, ◌≤◌, ◌<◌, length, set};
ghost use Rattle.lists.specs.Tests.{on};
ghost use Rattle.scheduler.specs.declared.Departure.{Departure};
ghost use Rattle.scheduler.specs.declared.Job.{Job};
ghost use Rattle.scheduler.specs.declared.Settings.{Settings};
ghost use Rattle.scheduler.specs.Limits.{slots, horizon, longest_estimate, longest_cleanup};
ghost use Rattle.scheduler.specs.Settings.{cleanup as cleanupOf};
ghost use Rattle.scheduler.specs.Table.{live_of};
ghost use Rattle.job_table.specs.Parts.{ends?, withdrawn_by};
ghost use Rattle.job_table.specs.Submitting.{Tells};
ghost use Rattle.job_columns.specs.Columns.{Column, Whole};
ghost use Rattle.job_columns.specs.Removal.{remove_at};
ghost use Rattle.job_columns.specs.JobColumns.{tenant_of};
ghost use Rattle.job_columns.specs.Held.{ColumnsOf};
ghost use Rattle.column_parts.specs.Departures.{leaves_from, early_by, refusal_at, cleans_by};
ghost use Rattle.column_parts.specs.LeavingColumns.{Leavable};
ghost use Rattle.column_parts.specs.Held.{turned_away, nobody_left, SoundIn, LeavesIn, MinuteIn, ExpiresIn, DueIn, SweepingIn};

use job_columns::Columns;
use job_table::not_there;
use scheduler::{Departure, Refusal, Settings, Tenant};

// What a call answers in numbers, with the clock and the next ticket after it. The tickets ended and started stand first in lent lists. What a
// call does not give is 0.
#[derive(Clone, Copy)]
pub struct Told {
    pub refusal: Refusal,
    pub ticket: u32,
    pub promise: u32,
    pub head: u32,
    pub forecast: u32,
    pub ended: usize,
    pub started: usize,
    pub clock: u32,
    pub next: u32,
}

impl Told {
    // Nothing is told.
    pub const NOTHING: Told = Told {
        refusal: Refusal::None,
        ticket: 0,
        promise: 0,
        head: 0,
        forecast: 0,
        ended: 0,
        started: 0,
        clock: 0,
        next: 0,
    };

    pub fn refused(refusal: Refusal, clock: u32, next: u32) -> Told
        ensures { result ≡ turned_away refusal clock next }
    {
        Told {
            refusal,
            clock,
            next,
            ..Told::NOTHING
        }
    }
}

// The tenant's live jobs, by which its lack of places is judged: none need be counted where all live jobs are fewer than its places.
pub fn live_of(columns: &Columns, tenant: Tenant, places: u32) -> usize
    requires { columns.now.live ≤ slots }
    ensures { (js : List Job) → Column tenant_of js columns.now.tenants → length js ≡ columns.now.live → Tells places (live_of tenant js) result }
{
    if (columns.live as u32) < places {
        return 0;
    }
    columns.of_tenant(tenant)
}

// What a departure has done: why it is refused, how many tickets stand in the list of those ended, and the one withdrawn (0 if none).
#[derive(Clone, Copy)]
pub struct Left {
    pub refusal: Refusal,
    pub ended: usize,
    pub withdrawn: u32,
}

// The number of the state in which a job can leave so.
fn leaves_from(how: Departure) -> u32
    ensures { result ≡ leaves_from how }
{
    match how {
        Departure::Complete => 2,
        Departure::Cancel => 1,
    }
}

// Whether a job would be over before its least.
fn is_early(how: Departure, start: u32, least: u32, clock: u32) -> bool
    requires { (start ≤ horizon) × (least ≤ longest_estimate) }
    ensures { result ≡ early_by clock how start least }
{
    match how {
        Departure::Complete => clock < start + least,
        Departure::Cancel => false,
    }
}

// Why a job cannot leave so, by its state, its start and its least: 7 or 11, then 20.
fn depart_refusal(how: Departure, state: u32, start: u32, least: u32, clock: u32) -> Refusal
    requires { (start ≤ horizon) × (least ≤ longest_estimate) }
    ensures { result ≡ refusal_at clock how state start least }
{
    if state == leaves_from(how) {
        if is_early(how, start, least, clock) {
            return Refusal::BeforeLeast;
        }
        return Refusal::None;
    }
    not_there(how)
}

// The job in this place leaves the columns, and its place is listed.
fn take_out(columns: &mut Columns, gone: &mut [u32; 64], count: usize, at: usize)
    requires { (at < columns.old.live) × (columns.old.live ≤ slots) × (count < slots) }
    ensures left { (S : Settings) (js : List Job) → ColumnsOf S js columns.old → ColumnsOf S (remove_at at js) columns.new }
    ensures one_less { columns.new.live ≡ columns.old.live - 1 }
    ensures listed { gone.new ≡ set gone.old count at }
{
    columns.remove(at);
    gone[count] = at as u32;
}

// Whether a job that leaves so stays in cleanup.
fn cleans(how: Departure, cleanup: u32) -> bool
    ensures { result ≡ cleans_by how cleanup }
{
    match how {
        Departure::Complete => 0 < cleanup,
        Departure::Cancel => false,
    }
}

// How many runs end.
fn ends(how: Departure) -> usize
    ensures { result ≡ on (ends? how) 1 }
{
    match how {
        Departure::Complete => 1,
        Departure::Cancel => 0,
    }
}

// The ticket if it is withdrawn, or 0.
fn withdrawn(how: Departure, ticket: u32) -> u32
    ensures { result ≡ withdrawn_by how ticket }
{
    match how {
        Departure::Complete => 0,
        Departure::Cancel => ticket,
    }
}

// The run of the job in this place is over, and it is in cleanup.
fn stay(
    columns: &mut Columns,
    ended: &mut [u32; 64],
    at: usize,
    ticket: u32,
    clock: u32,
    cleanup: u32,
) -> Left
    requires { (at < columns.old.live) × (columns.old.live ≤ slots) × (clock ≤ horizon) × (cleanup ≤ longest_cleanup) × Whole ended.old }
    ensures { (S : Settings) (h : Departure) (gone : List ℕ) (k : SoundIn S clock columns.old)
        → Leavable k.model h ticket at → cleanup ≡ cleanupOf S → cleans_by h cleanup ≡ true → Whole gone
        → LeavesIn k.model h ticket columns.old.live result ended.new gone columns.new }
{
    ended[0] = ticket;
    columns.clean(at, clock, cleanup);
    Left {
        refusal: Refusal::None,
        ended: 1,
        withdrawn: 0,
    }
}

// The job in this place leaves it, and those after it move up. (One call of `take_out` for both ways: with two, compiled code calls `shift`.)
fn go(
    columns: &mut Columns,
    ended: &mut [u32; 64],
    gone: &mut [u32; 64],
    at: usize,
    how: Departure,
    ticket: u32,
) -> Left
    requires { (at < columns.old.live) × (columns.old.live ≤ slots) × Whole ended.old × Whole gone.old }
    ensures { (S : Settings) (clock : ℕ) (k : SoundIn S clock columns.old)
        → Leavable k.model how ticket at → cleans_by how (cleanupOf S) ≡ false
        → LeavesIn k.model how ticket columns.old.live result ended.new gone.new columns.new }
{
    ended[0] = ticket;
    take_out(columns, gone, 0, at);
    Left {
        refusal: Refusal::None,
        ended: ends(how),
        withdrawn: withdrawn(how, ticket),
    }
}

fn refused(refusal: Refusal) -> Left
    ensures { result ≡ nobody_left refusal }
{
    Left {
        refusal,
        ended: 0,
        withdrawn: 0,
    }
}

// An early completion or a withdrawal: the job leaves its place, and those after it move up; or it stays there in cleanup.
pub fn leave(
    columns: &mut Columns,
    ended: &mut [u32; 64],
    gone: &mut [u32; 64],
    how: Departure,
    ticket: u32,
    clock: u32,
    settings: Settings,
) -> Left
    requires { SoundIn settings clock columns.old × Whole ended.old × Whole gone.old }
    ensures { (k : SoundIn settings clock columns.old)
        → LeavesIn k.model how ticket columns.old.live result ended.new gone.new columns.new }
{
    let at = columns.find(ticket);
    if columns.live <= at {
        return refused(not_there(how));
    }
    let why = depart_refusal(
        how,
        columns.states[at],
        columns.starts[at],
        columns.leasts[at],
        clock,
    );
    if !why.is_none() {
        return refused(why);
    }
    let cleanup = settings.cleanup();
    if cleans(how, cleanup) {
        return stay(columns, ended, at, ticket, clock, cleanup);
    }
    go(columns, ended, gone, at, how, ticket)
}

// What a minute has done: how many tickets stand in the list of those ended, and how many waiting jobs are to start.
#[derive(Clone, Copy)]
pub struct Expired {
    pub ended: usize,
    pub starting: usize,
}

// The jobs before a place have been looked at: how many ended, how many left, and how many are to start.
#[derive(Clone, Copy)]
struct Swept {
    at: usize,
    ended: usize,
    gone: usize,
    starting: usize,
}

// What is due happens to the job in this place: it is to start; its run ends, so that it leaves or is in cleanup; or its nodes are free, so
// that it leaves.
fn pass(
    columns: &mut Columns,
    ended: &mut [u32; 64],
    gone: &mut [u32; 64],
    before: Swept,
    minute: u32,
    cleanup: u32,
) -> Swept
    requires { DueIn minute cleanup ended.old gone.old columns.old before }
    ensures swept { (k : DueIn minute cleanup ended.old gone.old columns.old before)
        → SweepingIn k.model ended.new gone.new columns.new result }
    ensures nearer { (columns.new.live - result.at < columns.old.live - before.at) × (result.at ≤ columns.new.live) × (columns.new.live ≤ columns.old.live) }
{
    let at = before.at;
    let over = before.ended;
    let left = before.gone;
    let state = columns.states[at];
    if state == 1 {
        return Swept {
            at: at + 1,
            starting: before.starting + 1,
            ..before
        };
    }
    if state == 3 {
        take_out(columns, gone, left, at);
        return Swept {
            gone: left + 1,
            ..before
        };
    }
    ended[over] = columns.tickets[at];
    if 0 < cleanup {
        columns.clean(at, minute, cleanup);
        return Swept {
            at: at + 1,
            ended: over + 1,
            ..before
        };
    }
    take_out(columns, gone, left, at);
    Swept {
        ended: over + 1,
        gone: left + 1,
        ..before
    }
}

// In this minute runs end, and nodes are free again.
pub fn expire(
    columns: &mut Columns,
    ended: &mut [u32; 64],
    gone: &mut [u32; 64],
    minute: u32,
    cleanup: u32,
) -> Expired
    requires { MinuteIn minute cleanup columns.old × Whole ended.old × Whole gone.old }
    ensures { (k : MinuteIn minute cleanup columns.old) → ExpiresIn k.model columns.old.live result ended.new gone.new columns.new }
{
    let mut done = Swept {
        at: columns.first_due(0, minute),
        ended: 0,
        gone: 0,
        starting: 0,
    };
    while done.at < columns.live {
        let next = pass(columns, ended, gone, done, minute, cleanup);
        done = Swept {
            at: columns.first_due(next.at, minute),
            ..next
        };
    }
    Expired {
        ended: done.ended,
        starting: done.starting,
    }
}
