// The calls on a scheduler of either kind, by value, for programs that make many calls. The points of a conservative scheduler and their index are
// kept from call to call in lists that are lent. EASY keeps none.
#![tactic(auto)]

ghost use Rattle.std.specs.Prelude.{◌≡◌, length};
ghost use Rattle.scheduler.specs.Model.{view};
ghost use Rattle.scheduler.specs.Answers.{outcome};
ghost use Rattle.history.specs.Calls.{asked};
ghost use Rattle.conservative_table.specs.ListChanges.{rows};
ghost use Rattle.guarantees.specs.Rules.{call};
ghost use Rattle.guarantees.specs.Premise.{Premise};
ghost use Rattle.quiet_minutes.specs.QuietTicks.{passed_over};
ghost use Rattle.kept_calls.specs.KeptPoints.{KeptBeside, Passing};

use conservative_kept::Kept;
use scheduler::{Kind, Request, Scheduler};

// The points and the index of a scheduler.
pub fn begin(
    d: Scheduler,
    minutes: &mut [u32; 131],
    free: &mut [u32; 131],
    low: &mut [u32; 9],
    high: &mut [u32; 9],
) -> usize
    requires { Premise d × (length minutes.old ≡ rows) × (length free.old ≡ rows) × (length low.old ≡ 9) × (length high.old ≡ 9) }
    ensures { KeptBeside (view d) result minutes.new free.new low.new high.new }
{
    match d.settings.kind {
        Kind::Conservative => conservative_kept::begin(d, minutes, free, low, high),
        Kind::Easy => 0,
    }
}

// The clock has passed over minutes in which nothing else changes. The clock of the points follows.
pub fn pass_over(
    kind: Kind,
    clock: u32,
    minutes: &mut [u32; 131],
    free: &mut [u32; 131],
    low: &mut [u32; 9],
    high: &mut [u32; 9],
    count: usize,
) -> usize
    requires { Passing kind clock count minutes.old free.old low.old high.old }
    ensures { (q : Passing kind clock count minutes.old free.old low.old high.old)
        → KeptBeside (view (passed_over q.scheduler q.minutes)) result minutes.new free.new low.new high.new }
{
    match kind {
        Kind::Conservative => conservative_index::advance(minutes, free, count, low, high, clock),
        Kind::Easy => count,
    }
}

// The call that the request asks for, by the kind's rules.
pub fn call(
    d: Scheduler,
    request: Request,
    minutes: &mut [u32; 131],
    free: &mut [u32; 131],
    low: &mut [u32; 9],
    high: &mut [u32; 9],
    count: usize,
) -> Kept
    requires { Premise d × KeptBeside (view d) count minutes.old free.old low.old high.old }
    ensures { (result.outcome ≡ outcome (call (view d) (asked request)))
        × KeptBeside (call (view d) (asked request)).model result.count minutes.new free.new low.new high.new }
{
    match d.settings.kind {
        Kind::Conservative => conservative_kept::call(d, request, minutes, free, low, high, count),
        Kind::Easy => Kept {
            outcome: easy::call(d, request),
            count,
        },
    }
}
