// Minutes in which nothing is due: their ticks only move the clock, so that they can be passed over. A program that passes over them asks the slots
// of its scheduler one after another, in place.
#![tactic(auto)]

ghost use Rattle.std.specs.Prelude.{◌≡◌, suc, ◌+◌, ◌≤◌, ◌<◌};
ghost use Rattle.scheduler.specs.Limits.{horizon};
ghost use Rattle.jobs.specs.Slots.{Low, Orderly};
ghost use Rattle.quiet_minutes.specs.DueMinutes.{Until, QuietTo, DueAfter};

use scheduler::{Job, Scheduler, Settings, State};

// The last of the next `most` minutes, and no later than the last minute of all.
pub fn latest(clock: u32, most: u32) -> u32
    requires { clock ≤ horizon }
    ensures { (clock ≤ result) × (result ≤ clock + most) × (result ≤ horizon) }
{
    clock + most.min(Scheduler::HORIZON - clock)
}

// The last minute before `minute`, at most `last`; a `minute` that is past does not count.
fn before(minute: u32, clock: u32, last: u32) -> u32
    requires { clock ≤ last }
    ensures { (clock ≤ result) × (result ≤ last) × Until minute clock result × (result < last → minute ≡ suc result) }
{
    if minute <= clock {
        return last;
    }
    last.min(minute - 1)
}

// The last minute, at most `last`, up to which `job` neither starts nor ends nor is released. (Most jobs of a long queue start later than that. The
// wall time is worked out only if the estimate is over by then.)
pub fn quiet_of(job: Job, settings: Settings, clock: u32, last: u32) -> u32
    requires { Low job × Orderly settings job × (clock ≤ last) }
    ensures { (clock ≤ result) × (result ≤ last) × QuietTo settings clock result job × DueAfter settings result last job }
{
    if last < job.start {
        return last;
    }
    match job.state {
        State::Unused => last,
        State::Waiting => before(job.start, clock, last),
        State::Running => {
            if last < job.start + job.estimate as u32 {
                return last;
            }
            before(
                job.start + settings.run_time(job.estimate as u32),
                clock,
                last,
            )
        }
        State::Cleanup => before(job.end + settings.cleanup(), clock, last),
    }
}
