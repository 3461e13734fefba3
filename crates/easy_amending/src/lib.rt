// EASY backfilling (document 01: "Loose Desk"): an order corrected in place (document 02, No. 13), by value. The record is superseded; then
// the call settles, as every call does.
#![tactic(auto)]

ghost use Rattle.std.specs.Prelude.{◌≡◌};
ghost use Rattle.scheduler.specs.Model.{view};
ghost use Rattle.scheduler.specs.Answers.{outcome};
ghost use Rattle.jobs.specs.Premise.{Holds};
ghost use Rattle.history.specs.Calls as calls;
ghost use Rattle.easy_rules.specs.Easy.{call};
ghost use Rattle.easy_laws.specs.Validity.{Valid};
ghost use Rattle.easy_amending.specs.Superseding.{ticketed};

use scheduler::{Amendment, Answer, Outcome, Scheduler};

// The answer of a call that is taken gets this ticket; a refused one is unchanged.
fn with_ticket(answer: Answer, ticket: u32) -> Answer
    ensures { result ≡ ticketed ticket answer }
{
    if !answer.refusal.is_none() {
        return answer;
    }
    Answer { ticket, ..answer }
}

// The part on the table gives no ticket: the corrected job keeps its own and its place in the queue, so that no job has come when the call
// settles.
pub fn amend(d: Scheduler, a: Amendment) -> Outcome
    requires { Holds Valid d }
    ensures { result ≡ outcome (call (view d) (calls.amend a)) }
{
    let o = easy::finish(amending::supersede(d, a));
    Outcome {
        answer: with_ticket(o.answer, a.ticket),
        ..o
    }
}
