// Conservative backfilling with the profile and its index kept from call to call, in lists that are lent. Each call brings the lists up to date.
// Its answer is that of the call by value.
#![tactic(auto)]

ghost use Rattle.std.specs.Prelude.{◌≡◌, ◌≤◌, length};
ghost use Rattle.scheduler.specs.Limits.{horizon, longest_hold, longest_cleanup};
ghost use Rattle.scheduler.specs.Model.{view};
ghost use Rattle.scheduler.specs.Answers.{outcome};
ghost use Rattle.jobs.specs.Premise.{Holds};
ghost use Rattle.jobs.specs.Slots.{Low};
ghost use Rattle.history.specs.Calls as calls;
ghost use Rattle.conservative_rules.specs.Conservative.{call};
ghost use Rattle.conservative_laws.specs.Validity.{Valid};
ghost use Rattle.conservative_table.specs.ListChanges.{rows};
ghost use Rattle.conservative_kept.specs.Beside.{Beside};
ghost use Rattle.conservative_kept.specs.Depart.{freed_from, freed_by, freed};

use job_table::slot_of;
use scheduler::{Departure, Job, Outcome, Refusal, Request, Scheduler, Settings, Submission};

// What a call gives, and how many points there are after it.
#[derive(Clone, Copy)]
pub struct Kept {
    pub outcome: Outcome,
    pub count: usize,
}

// The points and the index of a scheduler.
pub fn begin(
    d: Scheduler,
    minutes: &mut [u32; 131],
    free: &mut [u32; 131],
    low: &mut [u32; 9],
    high: &mut [u32; 9],
) -> usize
    requires { Holds Valid d × (length minutes.old ≡ rows) × (length free.old ≡ rows) × (length low.old ≡ 9) × (length high.old ≡ 9) }
    ensures { Beside (view d) result minutes.new free.new low.new high.new }
{
    let count = conservative_plan::tabulate(d, minutes, free);
    conservative_index::build(free, count, low, high, 0);
    count
}

// A tick: the clock of the profile moves on too.
pub fn tick(
    d: Scheduler,
    minutes: &mut [u32; 131],
    free: &mut [u32; 131],
    low: &mut [u32; 9],
    high: &mut [u32; 9],
    count: usize,
) -> Kept
    requires { Holds Valid d × Beside (view d) count minutes.old free.old low.old high.old }
    ensures { (result.outcome ≡ outcome (call (view d) calls.tick))
        × Beside (call (view d) calls.tick).model result.count minutes.new free.new low.new high.new }
{
    let clock = d.clock;
    let given = conservative::tick(d);
    let mut n = count;
    if clock < Scheduler::HORIZON {
        n = conservative_index::advance(minutes, free, count, low, high, clock + 1);
    }
    Kept {
        outcome: given,
        count: n,
    }
}

// A submission: its start is sought through the index, and its span is taken in.
pub fn submit(
    d: Scheduler,
    s: Submission,
    minutes: &mut [u32; 131],
    free: &mut [u32; 131],
    low: &mut [u32; 9],
    high: &mut [u32; 9],
    count: usize,
) -> Kept
    requires { Holds Valid d × Beside (view d) count minutes.old free.old low.old high.old }
    ensures { (result.outcome ≡ outcome (call (view d) (calls.submit s)))
        × Beside (call (view d) (calls.submit s)).model result.count minutes.new free.new low.new high.new }
{
    let settings = d.settings;
    let slot = job_table::first_unused(d);
    let tenant = s.tenant;
    let live = job_table::live_of(d, slot, tenant, settings.quota(tenant));
    let refusal = job_table::submit_refusal(s, settings, live, d.next);
    if refusal.is_none() {
        let hold = settings.hold_time(s.estimate);
        let found = conservative_index::search(minutes, free, count, low, high, s.nodes, hold);
        let start = found.minute;
        let until = start + hold;
        if Scheduler::HORIZON < until {
            return Kept {
                outcome: d.refused(Refusal::PastHorizon),
                count,
            };
        }
        let x = spans::Span {
            from: start,
            until,
            nodes: s.nodes,
        };
        let n = conservative_index::take_in(minutes, free, count, low, high, x);
        let taken = conservative::accept(d, s, slot, start, found.reads as u32);
        return Kept {
            outcome: taken,
            count: n,
        };
    }
    Kept {
        outcome: d.refused(refusal),
        count,
    }
}

// The minute from which the nodes of a departing job are free.
fn freed_from(how: Departure, start: u32, clock: u32, cleanup: u32) -> u32
    requires { (clock ≤ horizon) × (cleanup ≤ longest_cleanup) }
    ensures { result ≡ freed_from how start clock cleanup }
{
    match how {
        Departure::Complete => clock + cleanup,
        Departure::Cancel => start,
    }
}

// What a job that departs gives back, by its nodes, its start and its hold time.
pub fn given_back(
    how: Departure,
    nodes: u32,
    start: u32,
    hold: u32,
    clock: u32,
    cleanup: u32,
) -> spans::Span
    requires { (start ≤ horizon) × (hold ≤ longest_hold) × (clock ≤ horizon) × (cleanup ≤ longest_cleanup) }
    ensures { result ≡ freed_by how nodes start hold clock cleanup }
{
    spans::Span {
        from: freed_from(how, start, clock, cleanup),
        until: start + hold,
        nodes,
    }
}

// The span that a departing job gives back.
fn freed(job: Job, how: Departure, settings: Settings, clock: u32) -> spans::Span
    requires { Low job × (clock ≤ horizon) }
    ensures { result ≡ freed settings clock how job }
{
    let hold = settings.hold_time(job.estimate as u32);
    given_back(
        how,
        job.nodes as u32,
        job.start,
        hold,
        clock,
        settings.cleanup(),
    )
}

// A job leaves. What it gives back is taken out of the points, and the waiting jobs move forward.
pub fn depart(
    d: Scheduler,
    how: Departure,
    ticket: u32,
    minutes: &mut [u32; 131],
    free: &mut [u32; 131],
    low: &mut [u32; 9],
    high: &mut [u32; 9],
    count: usize,
) -> Kept
    requires { Holds Valid d × Beside (view d) count minutes.old free.old low.old high.old }
    ensures { (result.outcome ≡ outcome (call (view d) (calls.depart how ticket)))
        × Beside (call (view d) (calls.depart how ticket)).model result.count minutes.new free.new low.new high.new }
{
    let slot = slot_of(&d.jobs, how, ticket).unwrap_or(Scheduler::LIVE);
    let left = job_table::leave(d, how, ticket);
    let refusal = left.refusal;
    let mut after = left.scheduler;
    let mut n = count;
    if refusal.is_none() {
        let job = d.jobs[slot];
        let x = freed(job, how, d.settings, d.clock);
        let out = conservative_table::lift(minutes, free, 0, count, x);
        let passed = conservative_plan::replan_kept(after, minutes, free, out.count);
        after = passed.scheduler;
        n = passed.count;
        conservative_index::build(free, n, low, high, 0);
    }
    Kept {
        outcome: conservative::advance(left, after),
        count: n,
    }
}

// The call that the request asks for.
pub fn call(
    d: Scheduler,
    request: Request,
    minutes: &mut [u32; 131],
    free: &mut [u32; 131],
    low: &mut [u32; 9],
    high: &mut [u32; 9],
    count: usize,
) -> Kept
    requires { Holds Valid d × Beside (view d) count minutes.old free.old low.old high.old }
    ensures { (result.outcome ≡ outcome (call (view d) (calls.asked request)))
        × Beside (call (view d) (calls.asked request)).model result.count minutes.new free.new low.new high.new }
{
    match request {
        Request::Submit(s) => submit(d, s, minutes, free, low, high, count),
        Request::Depart(how, ticket) => depart(d, how, ticket, minutes, free, low, high, count),
        Request::Tick => tick(d, minutes, free, low, high, count),
    }
}
