// A scheduler that is read back is tested (document 02, No. 11). Here are the tests of the `desk` line's numbers, of the tickets, of the shares and
// of each record by itself. Any number may stand in a field, so that no sum is made of numbers that may be high. The code compares a difference, or
// tests the parts first.
#![tactic(auto)]

ghost use Rattle.std.specs.Prelude.{◌≡◌, ◌&&◌, leb};
ghost use Rattle.lists.specs.Lists.{keep};
ghost use Rattle.lists.specs.Every.{every};
ghost use Rattle.scheduler.specs.Jobs.{is_live_of};
ghost use Rattle.scheduler.specs.Settings.{horizon, until};
ghost use Rattle.scheduler.specs.Table.{live_of};
ghost use Rattle.scheduler.specs.Model.{view};
ghost use Rattle.checkpoint_rules.specs.Acceptance.{ascending, desk_in_range, job_in_range, lacking, lacks_zero, runs_now, cleans_now, promises_hold, record_holds};
ghost use Rattle.checkpoint_laws.specs.Stages.{records_accepted};
ghost use Rattle.record_acceptance.specs.Records.{planned, ends_in_time, bounded_holds, own_holds, passes};

use scheduler::{Job, Kind, Scheduler, Settings, Tenant};

// Whether the numbers of the `desk` line are in range. The next ticket may be one above the last.
#[tactic(auto, unfolding(checkpoint_rules::specs::Acceptance::desk_in_range))]
fn desk_in_range(settings: Settings, clock: u32, next: u32) -> bool
    ensures { result ≡ desk_in_range settings clock next }
{
    (1..=Scheduler::NODES).contains(&settings.nodes)
        && clock <= Scheduler::HORIZON
        && (1..=Scheduler::LAST_TICKET + 1).contains(&next)
        && settings.cleanup <= Scheduler::LONGEST_CLEANUP
        && !scheduler::quotas_out_of_range(settings.quota_a, settings.quota_b)
}

// Whether a record's numbers and its tenant are in range.
#[tactic(auto, unfolding(checkpoint_rules::specs::Acceptance::job_in_range))]
fn job_in_range(settings: Settings, j: Job) -> bool
    ensures { result ≡ job_in_range settings j }
{
    (1..=settings.nodes).contains(&(j.nodes as u32))
        && (1..=settings.longest()).contains(&(j.estimate as u32))
        && j.start <= Scheduler::HORIZON
        && j.promise <= Scheduler::HORIZON
        && j.end <= Scheduler::HORIZON
        && j.tenant.is_known()
        && j.submitted <= Scheduler::HORIZON
        && j.forecast <= Scheduler::HORIZON
}

// Whether what a record of this kind lacks is 0.
fn lacking(kind: Kind, j: Job) -> bool
    ensures { result ≡ lacking kind j }
{
    match kind {
        Kind::Conservative => j.submitted == 0 && j.rank == 0 && j.forecast == 0,
        Kind::Easy => j.promise == 0 && (!j.is_waiting() || j.start == 0),
    }
}

// The same, and the end of a job that is not in cleanup.
#[tactic(auto, unfolding(checkpoint_rules::specs::Acceptance::lacks_zero))]
fn lacks_zero(kind: Kind, j: Job) -> bool
    ensures { result ≡ lacks_zero kind j }
{
    (j.is_cleaning() || j.end == 0) && lacking(kind, j)
}

// Whether a running job has started by now and ends after it.
#[tactic(auto, using(lists::specs::Tests::ltb_sub, scheduler::specs::Times::end_is))]
fn runs_now(settings: Settings, now: u32, j: Job) -> bool
    ensures { result ≡ runs_now settings now j }
{
    !j.is_running() || j.start <= now && now - j.start < settings.run_time(j.estimate as u32)
}

// Whether a job in cleanup has started, then ended, by now and still holds nodes.
#[tactic(auto, using(lists::specs::Tests::ltb_sub, scheduler::specs::Times::until_cleaning))]
fn cleans_now(settings: Settings, now: u32, j: Job) -> bool
    ensures { result ≡ cleans_now settings now j }
{
    !j.is_cleaning() || j.start <= j.end && j.end <= now && now - j.end < settings.cleanup()
}

// What is asked of every record.
#[tactic(auto, unfolding(checkpoint_rules::specs::Acceptance::record_holds))]
fn record_holds(settings: Settings, now: u32, j: Job) -> bool
    ensures { result ≡ record_holds settings now j }
{
    job_in_range(settings, j)
        && j.least <= j.estimate
        && lacks_zero(settings.kind, j)
        && runs_now(settings, now, j)
        && cleans_now(settings, now, j)
}

// Whether a hold is planned or under way: in EASY a waiting job has none.
fn is_planned(kind: Kind, j: Job) -> bool
    ensures { result ≡ planned kind j }
{
    match kind {
        Kind::Conservative => true,
        Kind::Easy => j.is_holding(),
    }
}

// Whether its nodes are free again by the last minute.
fn hold_ends(settings: Settings, j: Job) -> bool
    ensures { result ≡ leb (until settings j) (horizon settings) }
{
    if j.is_cleaning() {
        return j.end <= Scheduler::HORIZON - settings.cleanup();
    }
    j.start <= Scheduler::HORIZON - settings.hold_time(j.estimate as u32)
}

// Whether a hold, where there is one, ends by the last minute.
fn ends_in_time(settings: Settings, j: Job) -> bool
    ensures { result ≡ ends_in_time settings.kind settings j }
{
    !is_planned(settings.kind, j) || hold_ends(settings, j)
}

// In conservative backfilling: whether it starts by its promise and, where it waits, after now.
fn promises_hold(now: u32, j: Job) -> bool
    ensures { result ≡ promises_hold now j }
{
    j.start <= j.promise && (!j.is_waiting() || now < j.start)
}

// In EASY: whether it came in by now with a rank of 1 to 64. If it waits, it must be over by the last minute when it starts at its bound. (A rank
// is multiplied only if it is in range.)
fn bounded_holds(settings: Settings, now: u32, j: Job) -> bool
    ensures { result ≡ bounded_holds settings now j }
{
    if !(1..=64).contains(&j.rank) {
        return false;
    }
    let after = j.rank * settings.unit() + settings.hold_time(j.estimate as u32);
    j.submitted <= now && (!j.is_waiting() || j.submitted <= Scheduler::HORIZON - after)
}

// What its kind asks of a record.
fn own_holds(settings: Settings, now: u32, j: Job) -> bool
    ensures { result ≡ own_holds settings.kind settings now j }
{
    match settings.kind {
        Kind::Conservative => promises_hold(now, j),
        Kind::Easy => bounded_holds(settings, now, j),
    }
}

// All that is asked of a record by itself.
#[tactic(auto, unfolding(crate::specs::Records::passes))]
fn passes(settings: Settings, now: u32, next: u32, j: Job) -> bool
    ensures { result ≡ passes settings now next j }
{
    j.ticket < next
        && record_holds(settings, now, j)
        && ends_in_time(settings, j)
        && own_holds(settings, now, j)
}

// Whether the tickets of the live jobs ascend and each of their records passes.
fn all_pass(d: Scheduler) -> bool
    ensures { result ≡ (ascending 1 (view d).jobs && every (passes d.settings d.clock d.next) (view d).jobs) }
{
    let mut last = 0;
    for &j in &d.jobs {
        if j.is_live() {
            if j.ticket <= last || !passes(d.settings, d.clock, d.next, j) {
                return false;
            }
            last = j.ticket;
        }
    }
    true
}

// How many live jobs are this tenant's.
fn live_of(jobs: &[Job], tenant: Tenant) -> usize
    ensures { result ≡ live_of tenant (keep is_live_of jobs.now) }
{
    jobs.iter()
        .filter(|j| j.is_live() && j.tenant == tenant)
        .count()
}

// Whether the `desk` line's numbers, the tickets, the shares and each record by itself are as document 02, No. 11, asks.
#[tactic(auto, using(crate::specs::Together::together), unfolding(scheduler::specs::Model::view))]
pub fn records_accepted(d: Scheduler) -> bool
    ensures { result ≡ records_accepted (view d) }
{
    let settings = d.settings;
    desk_in_range(settings, d.clock, d.next)
        && all_pass(d)
        && live_of(&d.jobs, Tenant::A) <= settings.quota(Tenant::A) as usize
        && live_of(&d.jobs, Tenant::B) <= settings.quota(Tenant::B) as usize
}
