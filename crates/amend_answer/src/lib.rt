// The one answer of a corrected order that is withdrawn and taken in anew (document 02, No. 13).
#![tactic(auto)]

ghost use Rattle.std.specs.Prelude.{◌≡◌, ◌++◌};
ghost use Rattle.scheduler.specs.Answers.{answer};
ghost use Rattle.scheduler.specs.Table.{tickets};
ghost use Rattle.amend_rules.specs.Amending.{answered_both};
ghost use Rattle.amend_answer.specs.BothAnswers.{Lists, Replies};

use scheduler::{Answer, Tickets};

// The tickets of the first, and then those of the second.
fn joined(first: Tickets, second: Tickets) -> Tickets
    requires { Lists first second }
    ensures { (l : Lists first second) → result ≡ tickets (l.before ++ l.after) }
{
    let count = first.count + second.count;
    let mut list = first.list;
    list[first.count..count].copy_from_slice(&second.list[..second.count]);
    Tickets { count, list }
}

// One answer for a withdrawal and a submission: the submission's. The tickets that the withdrawal started stand first, and a head that the
// withdrawal made is the head of the answer.
pub fn both(withdrawal: Answer, submission: Answer) -> Answer
    requires { Replies withdrawal submission }
    ensures { (q : Replies withdrawal submission) → result ≡ answer (answered_both q.first q.second) }
{
    let answer = Answer {
        ended: Tickets::none(),
        started: joined(withdrawal.started, submission.started),
        ..submission
    };
    if withdrawal.head == 0 {
        return answer;
    }
    Answer {
        head: withdrawal.head,
        forecast: withdrawal.forecast,
        ..answer
    }
}
