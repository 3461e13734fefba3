// The job table: the parts of calls that both kinds share, each done in place. A job leaves on request. Runs end, and jobs leave or are in cleanup
// from then on. It finds the first unused slot for a job that comes in, counts the jobs that wait, and gives the refusals of these calls by
// numbers.
#![tactic(auto)]

ghost use Rattle.std.specs.Prelude.{◌≡◌, true, length, position};
ghost use Rattle.lists.specs.Lists.{keep};
ghost use Rattle.scheduler.specs.Jobs.{is_waiting, departs_as};
ghost use Rattle.scheduler.specs.Refusals.{not_there_of};
ghost use Rattle.scheduler.specs.Table.{live_of, of_tenant};
ghost use Rattle.scheduler.specs.Model.{view};
ghost use Rattle.jobs.specs.Soundness.{Sound};
ghost use Rattle.jobs.specs.Premise.{Holds};
ghost use Rattle.jobs.specs.Slots.{Low, Orderly};
ghost use Rattle.job_table.specs.Parts.{refusal_by, ends_if, cleans_if, withdrawn_if, past_horizon, part, bare_part, departing, ticking, due_by};
ghost use Rattle.job_table.specs.Submitting.{Tells};

use scheduler::{Departure, Job, Refusal, Scheduler, Settings, State, Submission, Tenant, Tickets};

// The last slot.
const LAST: usize = Scheduler::LIVE - 1;

// What a call has done on the table: why it is refused, the ticket that it gives, the tickets that it ends, the ticket that it withdraws (0 if
// none), and the scheduler.
// Kept: what may not change needs 0 for no ticket (the definitions `Own`, `withdrawn_by` and easy_engine's `head_before`).
#[derive(Clone, Copy)]
pub struct Part {
    pub refusal: Refusal,
    pub ticket: u32,
    pub ended: Tickets,
    pub withdrawn: u32,
    pub scheduler: Scheduler,
}

impl Part {
    // A part that gives no tickets.
    pub fn bare(refusal: Refusal, scheduler: Scheduler) -> Part
        ensures { result ≡ bare_part refusal scheduler }
    {
        Part {
            refusal,
            ticket: 0,
            ended: Tickets::none(),
            withdrawn: 0,
            scheduler,
        }
    }
}

// The first unused slot, found by halving; it is also the number of live jobs.
pub fn first_unused(d: Scheduler) -> usize
    requires { Holds Sound d }
    ensures { result ≡ length (view d).jobs }
{
    d.jobs.partition_point(|j| j.is_live())
}

// How many jobs wait. (Only the live slots are gone over: the compiler would unroll a loop of fixed length, and then move schedulers field by
// field.)
pub fn waiting(d: Scheduler) -> usize
    requires { Holds Sound d }
    ensures { result ≡ length (keep is_waiting (view d).jobs) }
{
    let live = first_unused(d);
    d.jobs[..live].iter().filter(|j| j.is_waiting()).count()
}

// How many of these jobs are this tenant's.
pub fn of_tenant(jobs: &[Job], tenant: Tenant) -> usize
    ensures { result ≡ length (keep (of_tenant tenant) jobs.now) }
{
    jobs.iter().filter(|j| j.tenant == tenant).count()
}

// The tenant's live jobs, by which a lack of places is judged. They need not be counted if all live jobs together are fewer than its places.
pub fn live_of(d: Scheduler, live: usize, tenant: Tenant, places: u32) -> usize
    requires { Holds Sound d × (live ≡ length (view d).jobs) }
    ensures { Tells places (live_of tenant (view d).jobs) result }
{
    if (live as u32) < places {
        return 0;
    }
    of_tenant(&d.jobs[..live], tenant)
}

// Why a submission is refused, whatever the kind, in this order: 14, 1, 2, 19, 15, 5. `live` is the number of its tenant's live jobs.
#[tactic(auto, unfolding(crate::specs::Parts::refusal_by, scheduler::specs::Answers::verdict))]
pub fn submit_refusal(s: Submission, settings: Settings, live: usize, next: u32) -> Refusal
    ensures { result ≡ refusal_by settings live next s }
{
    let tenant = s.tenant;
    if !tenant.is_known() {
        return Refusal::UnknownTenant;
    }
    if scheduler::outside_range(s.nodes, 1, settings.nodes) {
        return Refusal::NodesOutOfRange;
    }
    if scheduler::outside_range(s.estimate, 1, settings.longest()) {
        return Refusal::MinutesOutOfRange;
    }
    if s.estimate < s.least {
        return Refusal::LeastAboveMost;
    }
    if settings.quota(tenant) as usize <= live {
        return Refusal::QuotaFull;
    }
    if Scheduler::LAST_TICKET < next {
        return Refusal::NoTicketLeft;
    }
    Refusal::None
}

pub fn past_horizon(minute: u32) -> Refusal
    ensures { result ≡ past_horizon minute }
{
    if Scheduler::HORIZON < minute {
        return Refusal::PastHorizon;
    }
    Refusal::None
}

// Why a job that is not found cannot leave so.
pub fn not_there(how: Departure) -> Refusal
    ensures { result ≡ not_there_of how }
{
    match how {
        Departure::Complete => Refusal::NotRunning,
        Departure::Cancel => Refusal::NotWaiting,
    }
}

// Whether a job that leaves so is in cleanup after that.
fn cleans(how: Departure, settings: Settings) -> bool
    ensures { result ≡ cleans_if how true settings }
{
    how == Departure::Complete && 0 < settings.cleanup()
}

// Whether the run of the job found ends.
fn ends_if(how: Departure, found: bool) -> bool
    ensures { result ≡ ends_if how found }
{
    found && how == Departure::Complete
}

// The ticket of the job found if it is withdrawn, or 0.
fn withdrawn_if(how: Departure, found: bool, ticket: u32) -> u32
    ensures { result ≡ withdrawn_if how found ticket }
{
    if found && how == Departure::Cancel {
        return ticket;
    }
    0
}

// The slot of the job that can leave so and has this ticket.
pub fn slot_of(jobs: &[Job], how: Departure, ticket: u32) -> Option<usize>
    ensures { result ≡ position (departs_as how ticket) jobs.now }
{
    jobs.iter().position(|j| j.departs(how, ticket))
}

// An early completion or a withdrawal. The job leaves its slot, and those after it move up; or it stays there in cleanup.
pub fn leave(d: Scheduler, how: Departure, ticket: u32) -> Part
    requires { Holds Sound d }
    ensures { result ≡ part (departing (view d) how ticket) }
{
    // 7 or 11, then 20. (A refused call goes the same way: a second way out would copy the scheduler once more in every call.)
    let (refusal, slot) = match slot_of(&d.jobs, how, ticket) {
        None => (not_there(how), None),
        Some(i) if d.jobs[i].is_early(how, d.clock) => (Refusal::BeforeLeast, None),
        Some(i) => (Refusal::None, Some(i)),
    };
    let found = slot.is_some();
    let mut e = d;
    if let Some(i) = slot {
        if cleans(how, e.settings) {
            e.jobs[i] = e.jobs[i].cleaning(e.clock);
        } else {
            e.jobs.copy_within(i + 1.., i);
            e.jobs[LAST] = Job::unused();
        }
    }
    Part {
        refusal,
        ticket: 0,
        ended: Tickets::one_if(ends_if(how, found), ticket),
        withdrawn: withdrawn_if(how, found, ticket),
        scheduler: e,
    }
}

// What a tick does to a job.
#[derive(Clone, Copy)]
enum Due {
    Stays,
    Ends,
    Leaves,
}

// Whether its run ends in this minute, or its nodes are free again. (The wall time is worked out only once the estimate is over.)
fn due_at(job: Job, settings: Settings, minute: u32) -> Due
    requires { Low job × Orderly settings job }
    ensures { result ≡ due_by settings minute job }
{
    match job.state {
        State::Running if minute < job.start + job.estimate as u32 => Due::Stays,
        State::Running if job.ends_at(settings, minute) => Due::Ends,
        State::Cleanup if job.released_at(settings, minute) => Due::Leaves,
        _ => Due::Stays,
    }
}

// A tick. Jobs whose runs end leave, or are in cleanup from then on; jobs whose nodes are free again leave. Past the last minute nothing does
// either, so that a refused tick changes nothing.
pub fn expire(d: Scheduler) -> Part
    requires { Holds Sound d }
    ensures { result ≡ part (ticking (view d)) }
{
    let settings = d.settings;
    let cleared = 0 < settings.cleanup();
    // Found in place: a function that reads the scheduler copies it.
    let live = d.jobs.partition_point(|j| j.is_live());
    let clock = d.clock + 1;
    let mut e = d;
    e.clock = clock.min(Scheduler::HORIZON);
    let mut list = [0u32; 64];
    let mut kept = 0;
    let mut gone = 0;
    for i in 0..live {
        let j = e.jobs[i];
        match due_at(j, settings, clock) {
            Due::Ends => {
                list[gone] = j.ticket;
                gone += 1;
                if cleared {
                    e.jobs[kept] = j.cleaning(clock);
                    kept += 1;
                }
            }
            Due::Leaves => {}
            Due::Stays => {
                // Read again, so that compiled code moves it whole.
                e.jobs[kept] = e.jobs[i];
                kept += 1;
            }
        }
    }
    e.jobs[kept..live].fill(Job::unused());
    Part {
        refusal: past_horizon(clock),
        ticket: 0,
        ended: Tickets { count: gone, list },
        withdrawn: 0,
        scheduler: e,
    }
}
