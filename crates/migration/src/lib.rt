// From EASY to conservative backfilling while jobs run (document 02, No. 12: "From the Loose Desk to the new one"), by value.
#![tactic(auto)]

ghost use Rattle.std.specs.Prelude.{◌≡◌, ℕ, ◌<◌, length, get_or};
ghost use Rattle.scheduler.specs.Jobs.{unused};
ghost use Rattle.scheduler.specs.Model.{store, view};
ghost use Rattle.jobs.specs.Premise.{Holds};
ghost use Rattle.easy_laws.specs.Validity.{Valid};
ghost use Rattle.migration_rules.specs.Migration.{promise_settings, kept, migrated};
ghost use Rattle.migration.specs.HeldSlots.{Blank, held_slot, held_slots};

use scheduler::{Job, Kind, Scheduler, Settings};

// What the opening fixed, except the rules.
fn promise_settings(settings: Settings) -> Settings
    ensures { result ≡ promise_settings settings }
{
    Settings {
        kind: Kind::Conservative,
        ..settings
    }
}

// The same job with its start as its promise, and without what EASY alone keeps of a job.
fn kept(job: Job) -> Job
    ensures { result ≡ kept job }
{
    Job {
        rank: 0,
        promise: job.start,
        submitted: 0,
        forecast: 0,
        ..job
    }
}

// The slot of a job that holds nodes, as the change leaves it. A waiting job has no plan yet.
fn held_slot(job: Job) -> Job
    ensures { result ≡ held_slot job }
{
    if job.is_holding() {
        kept(job)
    } else {
        Job::unused()
    }
}

// All slots so, in their place. An unused slot is left as it is.
fn hold_slots(jobs: &mut [Job; 64])
    requires { (length jobs.old ≡ 64) × ((i : ℕ) → i < 64 → Blank (get_or jobs.old i unused)) }
    ensures { jobs.new ≡ held_slots jobs.old }
{
    for job in jobs.iter_mut() {
        if job.is_live() {
            *job = held_slot(*job);
        }
    }
}

// Jobs that hold nodes keep their starts, which become their promises. Each waiting job, in ticket order, is planned at its earliest start beside
// these jobs and those planned before it. That start is its promise.
pub fn migrate(d: Scheduler) -> Scheduler
    requires { Holds Valid d }
    ensures { result ≡ store (migrated (view d)) }
{
    let settings = promise_settings(d.settings);
    let clock = d.clock;
    let mut held = d.jobs;
    hold_slots(&mut held);
    let mut minutes = [0u32; 131];
    let mut free = [0u32; 131];
    let mut count = conservative_plan::tabulate_slots(
        &held,
        settings,
        clock,
        &mut minutes,
        &mut free,
    );
    let mut low = [0u32; 9];
    let mut high = [0u32; 9];
    conservative_index::build(&free, count, &mut low, &mut high, 0);
    let mut e = d;
    for i in 0..Scheduler::LIVE {
        let mut j = e.jobs[i];
        if j.is_waiting() {
            let nodes = j.nodes as u32;
            let hold = settings.hold_time(j.estimate as u32);
            let found = conservative_index::search(
                &minutes, &free, count, &low, &high, nodes, hold,
            );
            let start = found.minute;
            let taken = conservative_plan::span(nodes, start, hold);
            count = conservative_index::take_in(
                &mut minutes,
                &mut free,
                count,
                &mut low,
                &mut high,
                taken,
            );
            j = conservative_plan::place(j, clock, start);
        }
        e.jobs[i] = kept(j);
    }
    e.settings = settings;
    e
}
