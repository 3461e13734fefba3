// Corrected orders in place (document 02, No. 13) in conservative backfilling: the record is superseded, and the waiting jobs move forward.
#![tactic(auto)]

ghost use Rattle.std.specs.Prelude.{◌≡◌};
ghost use Rattle.scheduler.specs.Model.{view};
ghost use Rattle.scheduler.specs.Answers.{outcome};
ghost use Rattle.jobs.specs.Premise.{Holds};
ghost use Rattle.history.specs.Calls as calls;
ghost use Rattle.conservative_rules.specs.Conservative.{call};
ghost use Rattle.conservative_laws.specs.Validity.{Valid};
ghost use Rattle.conservative_amending.specs.Amend.{answering};

use scheduler::{Amendment, Answer, Outcome, Scheduler};

// The same outcome with the ticket and the promise that it gives.
fn answering(o: Outcome, ticket: u32, promise: u32) -> Outcome
    ensures { result ≡ answering ticket promise o }
{
    Outcome {
        answer: Answer {
            ticket,
            promise,
            ..o.answer
        },
        ..o
    }
}

// The named job is superseded and keeps its promise. Then all waiting jobs move forward, this one too.
pub fn amend(d: Scheduler, a: Amendment) -> Outcome
    requires { Holds Valid d }
    ensures { result ≡ outcome (call (view d) (calls.amend a)) }
{
    let left = amending::supersede(d, a);
    if !left.refusal.is_none() {
        return d.refused(left.refusal);
    }
    let promise = amending::kept_promise(d, a);
    let after = conservative_plan::replan_all(left.scheduler);
    answering(conservative::advance(left, after), a.ticket, promise)
}
