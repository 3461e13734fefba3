// The earliest possible start of a waiting job, for either kind (document 02, No. 7: "soonest minute"). It is EASY's search for the shadow, over
// the minutes in which nodes are given back at the earliest. It looks at no minute between these.
#![tactic(auto)]

ghost use Rattle.std.specs.Prelude.{◌≡◌, true, ◌≤◌, ◌<◌};
ghost use Rattle.lists.specs.Lists.{first};
ghost use Rattle.scheduler.specs.Limits.{horizon};
ghost use Rattle.scheduler.specs.Jobs.{is_holding, departs_as};
ghost use Rattle.scheduler.specs.Settings.{until};
ghost use Rattle.scheduler.specs.Model.{view};
ghost use Rattle.jobs.specs.Soundness.{Sound};
ghost use Rattle.jobs.specs.Premise.{Holds};
ghost use Rattle.jobs.specs.Slots.{Low};
ghost use Rattle.easy_rules.specs.EarliestStart.{over_at_least, earliest_for, earliest_start};
ghost use Rattle.earliest.specs.Survey.{Surveyed};
ghost use Rattle.easy_engine.specs.Found.{Asked};

use scheduler::{Departure, Earliest, Job, Refusal, Scheduler, Settings};

// The minute from which the nodes of a job that holds some are free, if it is over at its least, or now if that is past.
fn released(job: Job, settings: Settings, now: u32) -> u32
    requires { Low job × (now ≤ horizon) × (is_holding job ≡ true) }
    ensures { result ≡ until settings (over_at_least now job) }
{
    if job.is_cleaning() {
        return job.end + settings.cleanup();
    }
    let end = (job.start + job.least as u32).max(now);
    end + settings.cleanup()
}

// The nodes of the jobs that hold some, the minutes in which they are given back at the earliest, how many jobs these are, and how many nodes are
// free.
#[derive(Clone, Copy)]
struct Taken {
    held: [u32; 64],
    ends: [u32; 64],
    running: usize,
    spare: u32,
}

fn survey(d: Scheduler) -> Taken
    requires { Holds Sound d }
    ensures { Surveyed d result.held result.ends result.running result.spare }
{
    let settings = d.settings;
    let clock = d.clock;
    let mut held = [0u32; 64];
    let mut ends = [0u32; 64];
    let mut running: usize = 0;
    let mut spare = settings.nodes;
    for &j in &d.jobs {
        if j.is_holding() {
            let nodes = j.nodes as u32;
            held[running] = nodes;
            ends[running] = released(j, settings, clock);
            running += 1;
            spare -= nodes;
        }
    }
    Taken {
        held,
        ends,
        running,
        spare,
    }
}

// The smallest minute, now or later, at which this many nodes would be free.
fn earliest(d: Scheduler, nodes: u32) -> u32
    requires { Holds Sound d × (nodes ≤ d.settings.nodes) }
    ensures { result ≡ earliest_for (view d) nodes }
{
    let taken = survey(d);
    let clock = d.clock;
    if nodes <= easy_engine::avail_at(&taken.held, &taken.ends, taken.running, taken.spare, clock) {
        return clock;
    }
    let settings = d.settings;
    let latest = clock + settings.unit();
    easy_engine::shadow(
        &taken.held,
        &taken.ends,
        taken.running,
        taken.spare,
        nodes,
        latest,
    )
}

// The nodes that the waiting job with this ticket asks for, if such a job waits.
fn asked_by(d: Scheduler, ticket: u32) -> Option<u32>
    ensures { Asked (first (departs_as Departure.Cancel ticket) d.jobs) result }
{
    for &j in &d.jobs {
        if j.departs(Departure::Cancel, ticket) {
            return Some(j.nodes as u32);
        }
    }
    None
}

// The minute before which the waiting job with this ticket cannot start.
pub fn start(d: Scheduler, ticket: u32) -> Earliest
    requires { Holds Sound d }
    ensures { result ≡ earliest_start (view d) ticket }
{
    match asked_by(d, ticket) {
        Some(nodes) => Earliest {
            refusal: Refusal::None,
            minute: earliest(d, nodes),
        },
        None => Earliest {
            refusal: Refusal::NotWaiting,
            minute: 0,
        },
    }
}
