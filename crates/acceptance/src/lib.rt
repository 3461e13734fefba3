// Tests whether calls may be made on a scheduler (document 02, No. 11: "A desk read back is tested"). Each record is tested by itself first, then
// the plan and EASY's queue. The scheduler may hold any numbers.
#![tactic(auto)]

ghost use Rattle.std.specs.Prelude.{◌≡◌};
ghost use Rattle.scheduler.specs.Model.{view};
ghost use Rattle.checkpoint_rules.specs.Acceptance.{accepted};

use scheduler::Scheduler;

#[tactic(auto, using(checkpoint_laws::specs::Stages::accepted_stages))]
pub fn accepted(d: Scheduler) -> bool
    ensures { result ≡ accepted (view d) }
{
    record_acceptance::records_accepted(d) && plan_acceptance::plan_accepted(d)
}
