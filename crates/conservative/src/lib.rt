// Conservative backfilling (document 01: "Promise Desk"), by value: submission, early completion, withdrawal and tick. `conservative_plan` places
// the jobs and has the profile.
#![tactic(auto)]

ghost use Rattle.std.specs.Prelude.{◌≡◌, ◌≤◌, ◌<◌};
ghost use Rattle.scheduler.specs.Limits.{max_nodes, longest_estimate, slots, last_ticket};
ghost use Rattle.scheduler.specs.Table.{tickets};
ghost use Rattle.scheduler.specs.Model.{view};
ghost use Rattle.scheduler.specs.Answers.{outcome};
ghost use Rattle.jobs.specs.Premise.{Holds};
ghost use Rattle.history.specs.Calls as calls;
ghost use Rattle.conservative_rules.specs.Conservative.{call, begun};
ghost use Rattle.conservative_laws.specs.Validity.{Valid};
ghost use Rattle.conservative_laws.specs.Sentences.{starts_at};
ghost use Rattle.conservative.specs.Advance.{began, advanced_by};
ghost use Rattle.conservative.specs.Submit.{accepted};
ghost use Rattle.conservative.specs.Tick.{started_by};

use job_table::Part;
use scheduler::{
    Answer, Departure, Job, Outcome, Refusal, Request, Scheduler, State, Submission, Tickets,
};

// The tickets of the jobs that wait before and run after, slot by slot.
fn newly_running(before: Scheduler, after: Scheduler) -> Tickets
    ensures { result ≡ tickets (begun before.jobs after.jobs) }
{
    let mut list = [0u32; 64];
    let mut n: usize = 0;
    for i in 0..Scheduler::LIVE {
        let j = before.jobs[i];
        if began(j, after.jobs[i]) {
            list[n] = j.ticket;
            n += 1;
        }
    }
    Tickets { count: n, list }
}

// Whether it waits before and runs after.
fn began(before: Job, after: Job) -> bool
    ensures { result ≡ began before after }
{
    after.is_running() && before.is_waiting()
}

// The answer of a call that has done its part on the table; `after` is the scheduler once the others have moved.
pub fn advance(left: Part, after: Scheduler) -> Outcome
    ensures { result ≡ advanced_by left after }
{
    Outcome {
        answer: Answer {
            ended: left.ended,
            started: newly_running(left.scheduler, after),
            ..Answer::refused(left.refusal)
        },
        scheduler: after,
    }
}

// A job leaves by an early completion or a withdrawal. Then the waiting jobs move forward.
pub fn depart(d: Scheduler, how: Departure, ticket: u32) -> Outcome
    requires { Holds Valid d }
    ensures { result ≡ outcome (call (view d) (calls.depart how ticket)) }
{
    let left = job_table::leave(d, how, ticket);
    let mut after = left.scheduler;
    if left.refusal.is_none() {
        after = conservative_plan::replan_all(after);
    }
    advance(left, after)
}

// The outcome of a submission that is accepted into the slot. Its planned start is its promise, and `reads` points were read for it.
pub fn accept(d: Scheduler, s: Submission, slot: usize, start: u32, reads: u32) -> Outcome
    requires { (slot < slots) × (d.next ≤ last_ticket) × (s.nodes ≤ max_nodes) × (s.estimate ≤ longest_estimate) × (s.least ≤ s.estimate) }
    ensures { result ≡ accepted d s slot start reads }
{
    let now = d.clock;
    let ticket = d.next;
    let order = Job::fresh(ticket, s, State::Waiting, start, start);
    let job = conservative_plan::place(order, now, start);
    let mut e = d;
    e.jobs[slot] = job;
    e.next = ticket + 1;
    let started = Tickets::one_if(start == now, ticket);
    Outcome {
        answer: Answer {
            ticket,
            promise: start,
            reads,
            started,
            ..Answer::refused(Refusal::None)
        },
        scheduler: e,
    }
}

pub fn submit(d: Scheduler, s: Submission) -> Outcome
    requires { Holds Valid d }
    ensures { result ≡ outcome (call (view d) (calls.submit s)) }
{
    let settings = d.settings;
    let slot = job_table::first_unused(d);
    let tenant = s.tenant;
    let live = job_table::live_of(d, slot, tenant, settings.quota(tenant));
    let refusal = job_table::submit_refusal(s, settings, live, d.next);
    if refusal.is_none() {
        let hold = settings.hold_time(s.estimate);
        let found = conservative_plan::earliest(d, s.nodes, hold);
        let start = found.minute;
        if Scheduler::HORIZON < start + hold {
            return d.refused(Refusal::PastHorizon);
        }
        return accept(d, s, slot, start, found.reads as u32);
    }
    d.refused(refusal)
}

// Whether it waits and its planned start is this minute.
fn starts_at(job: Job, now: u32) -> bool
    ensures { result ≡ starts_at now job }
{
    job.start == now && job.is_waiting()
}

// The waiting jobs whose planned start is now start, and the call answers. If the tick is refused, no job is planned for now.
fn start_due(p: Part) -> Outcome
    ensures { result ≡ started_by p }
{
    let mut e = p.scheduler;
    let now = e.clock;
    let mut list = [0u32; 64];
    let mut n: usize = 0;
    for i in 0..Scheduler::LIVE {
        let j = e.jobs[i];
        if starts_at(j, now) {
            list[n] = j.ticket;
            n += 1;
            e.jobs[i] = conservative_plan::place(j, now, now);
        }
    }
    Outcome {
        answer: Answer {
            ended: p.ended,
            started: Tickets { count: n, list },
            ..Answer::refused(p.refusal)
        },
        scheduler: e,
    }
}

pub fn tick(d: Scheduler) -> Outcome
    requires { Holds Valid d }
    ensures { result ≡ outcome (call (view d) calls.tick) }
{
    start_due(job_table::expire(d))
}

// The call that the request asks for.
pub fn call(d: Scheduler, request: Request) -> Outcome
    requires { Holds Valid d }
    ensures { result ≡ outcome (call (view d) (calls.asked request)) }
{
    match request {
        Request::Submit(s) => submit(d, s),
        Request::Depart(how, ticket) => depart(d, how, ticket),
        Request::Tick => tick(d),
    }
}
