// Where conservative backfilling places jobs: the profile of a scheduler's plan, the earliest start of a job in it, and the passes in which waiting
// jobs move forward after an early completion or a withdrawal. `conservative` has the calls.
#![tactic(auto)]

ghost use Rattle.std.specs.Prelude.{◌≡◌, ◌≤◌, ◌<◌, length};
ghost use Rattle.scheduler.specs.Limits.{horizon, longest_hold, slots};
ghost use Rattle.scheduler.specs.Settings.{hold_time, until};
ghost use Rattle.scheduler.specs.Table.{with_jobs};
ghost use Rattle.scheduler.specs.Model.{view};
ghost use Rattle.jobs.specs.Premise.{Holds};
ghost use Rattle.jobs.specs.Slots.{Low};
ghost use Rattle.conservative_rules.specs.Conservative.{placed, points, compressed, spans};
ghost use Rattle.conservative_table.specs.ListChanges.{rows};
ghost use Rattle.conservative_table.specs.ProfileLists.{IsProfile};
ghost use Rattle.spans.specs.Index.{index};
ghost use Rattle.conservative_index.specs.StoredIndex.{stored_blocks};
ghost use Rattle.conservative_profile.specs.StoredProfile.{stored};
ghost use Rattle.conservative_plan.specs.PlannedSlots.{span_at, Planned, Slots, Tabulated};
ghost use Rattle.conservative_plan.specs.EarliestStart.{Askable, Asked};
ghost use Rattle.conservative_plan.specs.Replan.{Replans, Turned, TurnDone, TurnAsked};
ghost use Rattle.conservative_plan.specs.Pass.{Replannable, calm_turns, slot_after};

use conservative_index::{Blocks, Start};
use conservative_profile::Profile;
use scheduler::{Job, Scheduler, Settings, State};

// `nodes` nodes, from the minute `from` on, for `hold` minutes.
pub fn span(nodes: u32, from: u32, hold: u32) -> spans::Span
    requires { (from ≤ horizon) × (hold ≤ longest_hold) }
    ensures { result ≡ span_at nodes from hold }
{
    spans::Span {
        from,
        until: from + hold,
        nodes,
    }
}

// The minute from which the job's nodes are free again.
pub fn held_until(job: Job, settings: Settings, hold: u32) -> u32
    requires { Low job × (hold ≡ hold_time settings job.estimate) }
    ensures { result ≡ until settings job }
{
    if job.is_cleaning() {
        return job.end + settings.cleanup();
    }
    job.start + hold
}

// The profile of slots: the span of each live job is laid over the idle machine's.
pub fn tabulate_slots(
    jobs: &[Job; 64],
    settings: Settings,
    clock: u32,
    minutes: &mut [u32; 131],
    free: &mut [u32; 131],
) -> usize
    requires { Slots settings clock jobs.now × (length minutes.old ≡ rows) × (length free.old ≡ rows) }
    ensures { IsProfile settings.nodes (spans settings jobs.now) clock result minutes.new free.new }
{
    let mut count = conservative_table::idle(minutes, free, settings.nodes, clock);
    for &job in jobs {
        if job.is_live() {
            let hold = settings.hold_time(job.estimate as u32);
            let taken = spans::Span {
                from: job.start,
                until: held_until(job, settings, hold),
                nodes: job.nodes as u32,
            };
            count = conservative_table::lay(minutes, free, 0, count, taken).count;
        }
    }
    count
}

// The profile of a scheduler's jobs.
pub fn tabulate(d: Scheduler, minutes: &mut [u32; 131], free: &mut [u32; 131]) -> usize
    requires { Holds Planned d × (length minutes.old ≡ rows) × (length free.old ≡ rows) }
    ensures { Tabulated d result minutes.new free.new }
{
    tabulate_slots(&d.jobs, d.settings, d.clock, minutes, free)
}

// The profile as a value.
pub fn profile_of(d: Scheduler) -> Profile
    requires { Holds Planned d }
    ensures { result ≡ stored (points (view d)) }
{
    let mut minutes = [0u32; 131];
    let mut free = [0u32; 131];
    let count = tabulate(d, &mut minutes, &mut free);
    Profile::copied(&minutes, &free, count)
}

// The index of the profile as a value.
pub fn index_of(d: Scheduler) -> Blocks
    requires { Holds Planned d }
    ensures { result ≡ stored_blocks (index (points (view d))) }
{
    let mut minutes = [0u32; 131];
    let mut free = [0u32; 131];
    let count = tabulate(d, &mut minutes, &mut free);
    let mut low = [0u32; 9];
    let mut high = [0u32; 9];
    conservative_index::build(&free, count, &mut low, &mut high, 0);
    Blocks::copied(&low, &high, count)
}

// The earliest minute, now or later, from which on `nodes` nodes are free for `hold` minutes, and how many points are read for it.
pub fn earliest(d: Scheduler, nodes: u32, hold: u32) -> Start
    requires { Askable d nodes hold }
    ensures { Asked (view d) nodes hold result }
{
    let mut minutes = [0u32; 131];
    let mut free = [0u32; 131];
    let count = tabulate(d, &mut minutes, &mut free);
    let mut low = [0u32; 9];
    let mut high = [0u32; 9];
    conservative_index::build(&free, count, &mut low, &mut high, 0);
    conservative_index::search(&minutes, &free, count, &low, &high, nodes, hold)
}

// The job with the planned start s; it runs if that is now.
pub fn place(job: Job, now: u32, s: u32) -> Job
    ensures { result ≡ placed now s job }
{
    if s == now {
        return job.at(State::Running, s);
    }
    job.at(State::Waiting, s)
}

// A start, and how many points the profile has with a job there.
#[derive(Clone, Copy)]
pub struct Turn {
    pub start: u32,
    pub count: usize,
}

// The turn of a waiting job, by its nodes, its planned start and its hold time. Takes the job out of the plan and puts it in again at its smallest
// minute, if that is another.
pub fn take_turn(
    minutes: &mut [u32; 131],
    free: &mut [u32; 131],
    count: usize,
    nodes: u32,
    start: u32,
    hold: u32,
) -> Turn
    requires { TurnAsked minutes.old free.old count nodes start hold }
    ensures { (a : TurnAsked minutes.old free.old count nodes start hold)
        → Turned a.replans result minutes.new free.new }
{
    let found = conservative_table::search_before(minutes, free, start, nodes, hold);
    let to = found.minute;
    if to == start {
        return Turn { start, count };
    }
    let before = span(nodes, start, hold);
    let out = conservative_table::lift(minutes, free, found.near, count, before);
    let after = span(nodes, to, hold);
    let back = conservative_table::lay(minutes, free, found.near, out.count, after);
    Turn {
        start: to,
        count: back.count,
    }
}

// A job where it is planned, and how many points the profile then has.
#[derive(Clone, Copy)]
pub struct Replanned {
    pub job: Job,
    pub count: usize,
}

// The turn of a waiting job.
fn replan(
    job: Job,
    hold: u32,
    clock: u32,
    minutes: &mut [u32; 131],
    free: &mut [u32; 131],
    count: usize,
) -> Replanned
    requires { (q : Replans minutes.old free.old count job clock) × (hold ≡ hold_time q.settings job.estimate) }
    ensures { (q : Replans minutes.old free.old count job clock) → hold ≡ hold_time q.settings job.estimate
        → TurnDone q result minutes.new free.new }
{
    let t = take_turn(minutes, free, count, job.nodes as u32, job.start, hold);
    if t.start == job.start {
        return Replanned {
            job,
            count: t.count,
        };
    }
    Replanned {
        job: place(job, clock, t.start),
        count: t.count,
    }
}

// Turns in a row without a move; 0 if this turn moved the job.
pub fn calm(turns: usize, before: u32, after: u32) -> usize
    ensures { result ≡ calm_turns turns before after }
{
    if after == before {
        return turns;
    }
    0
}

// The slot whose turn is next, of so many: after the last, the first.
pub fn slot_after(i: usize, size: usize) -> usize
    requires { i < slots }
    ensures { result ≡ slot_after size i }
{
    if i + 1 < size {
        return i + 1;
    }
    0
}

// The scheduler after the passes, and how many points its profile has.
#[derive(Clone, Copy)]
pub struct Passed {
    pub scheduler: Scheduler,
    pub count: usize,
}

// Takes each waiting job out of the plan, in ticket order, and puts it in again while the others stay where they are. It begins again with the
// first until a whole pass moves no job: until as many turns in a row as there are slots were without a move. The lists are the scheduler's
// profile, before and after.
pub fn replan_kept(
    d: Scheduler,
    minutes: &mut [u32; 131],
    free: &mut [u32; 131],
    count: usize,
) -> Passed
    requires { Holds Replannable d × Tabulated d count minutes.old free.old }
    ensures { (result.scheduler ≡ with_jobs d (compressed (view d).settings d.clock d.jobs))
        × Tabulated result.scheduler result.count minutes.new free.new }
{
    let settings = d.settings;
    let clock = d.clock;
    let mut n = count;
    let mut e = d;
    let mut i: usize = 0;
    let mut turns: usize = 0;
    while turns < Scheduler::LIVE {
        let j = e.jobs[i];
        turns += 1;
        if j.is_waiting() {
            let hold = settings.hold_time(j.estimate as u32);
            let t = replan(j, hold, clock, minutes, free, n);
            e.jobs[i] = t.job;
            n = t.count;
            turns = calm(turns, j.start, t.job.start);
        }
        i = slot_after(i, Scheduler::LIVE);
    }
    Passed {
        scheduler: e,
        count: n,
    }
}

// The passes over the scheduler's profile, which is not kept.
pub fn replan_all(d: Scheduler) -> Scheduler
    requires { Holds Replannable d }
    ensures { result ≡ with_jobs d (compressed (view d).settings d.clock d.jobs) }
{
    let mut minutes = [0u32; 131];
    let mut free = [0u32; 131];
    let count = tabulate(d, &mut minutes, &mut free);
    let passed = replan_kept(d, &mut minutes, &mut free, count);
    passed.scheduler
}
