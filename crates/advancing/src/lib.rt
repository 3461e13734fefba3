// Minutes that pass at once, on a scheduler of either kind, by value: up to the first in which something is due.
#![tactic(auto)]

ghost use Rattle.std.specs.Prelude.{◌≡◌, true, ◌+◌, ◌≤◌};
ghost use Rattle.scheduler.specs.Model.{view};
ghost use Rattle.scheduler.specs.Answers.{accepts};
ghost use Rattle.scheduler.specs.Refusals.{wait_refusal};
ghost use Rattle.guarantees.specs.Premise.{Premise};
ghost use Rattle.scheduler.specs.Limits.{horizon};
ghost use Rattle.advancing.specs.Advances.{QuietFor, advances};

use scheduler::{Answer, Refusal, Scheduler};

// What is answered: how many minutes have passed, and the answer to the last of them.
#[derive(Clone, Copy)]
pub struct Advanced {
    pub answer: Answer,
    pub minutes: u32,
}

#[derive(Clone, Copy)]
pub struct AdvanceOutcome {
    pub answer: Advanced,
    pub scheduler: Scheduler,
}

// How many of the next minutes are quiet, from the first on.
fn quiet_for(d: Scheduler, minutes: u32) -> u32
    requires { (Premise d) × (d.clock + minutes ≤ horizon) }
    ensures { QuietFor d minutes result }
{
    let mut until = d.clock + minutes;
    for &j in &d.jobs {
        until = quiet_minutes::quiet_of(j, d.settings, d.clock, until);
    }
    until - d.clock
}

// Quiet minutes are passed over, and the one after them is a tick.
fn pass(d: Scheduler, minutes: u32) -> AdvanceOutcome
    requires { (Premise d) × (accepts (wait_refusal (view d) minutes) ≡ true) }
    ensures { result ≡ advances d minutes }
{
    let quiet = quiet_for(d, minutes);
    let passed = Scheduler {
        clock: d.clock + quiet,
        ..d
    };
    if quiet < minutes {
        let o = calls::tick(passed);
        return AdvanceOutcome {
            answer: Advanced {
                answer: o.answer,
                minutes: quiet + 1,
            },
            scheduler: o.scheduler,
        };
    }
    AdvanceOutcome {
        answer: Advanced {
            answer: Answer::refused(Refusal::None),
            minutes: quiet,
        },
        scheduler: passed,
    }
}

// So many minutes pass, or fewer: up to the first in which something is due. Refused as a wait of so many.
pub fn advance(d: Scheduler, minutes: u32) -> AdvanceOutcome
    requires { Premise d }
    ensures { result ≡ advances d minutes }
{
    let refusal = calls::wait_refusal(d, minutes);
    if refusal.is_none() {
        return pass(d, minutes);
    }
    AdvanceOutcome {
        answer: Advanced {
            answer: Answer::refused(refusal),
            minutes: 0,
        },
        scheduler: d,
    }
}
