// The calls on a scheduler that is lent (document 01: "A rack lends its desk to each call and finds it changed there afterwards"). Each makes its
// call by value, and leaves what that hands back where the scheduler was lent.
#![tactic(auto)]

ghost use Rattle.std.specs.Prelude.{◌≡◌};
ghost use Rattle.scheduler.specs.Model.{view};
ghost use Rattle.history.specs.Calls as calls;
ghost use Rattle.easy_rules.specs.EarliestStart.{earliest_start};
ghost use Rattle.guarantees.specs.Premise.{Premise};
ghost use Rattle.calls.specs.LongestCall.{longest_of};
ghost use Rattle.calls.specs.TextCall.{ShowsPage, ShowsText, ShowsWhy};
ghost use Rattle.lent_calls.specs.CallContract.{Leaves, LeavesAmended};
ghost use Rattle.lent_calls.specs.AdvanceContract.{LeavesAdvanced};
ghost use Rattle.lent_calls.specs.ProfileContract.{ShowsPoints};
ghost use Rattle.lent_calls.specs.IndexContract.{ShowsBlocks};
ghost use Rattle.lent_calls.specs.RestoreContract.{Restores};
ghost use Rattle.lent_calls.specs.MigrateContract.{Migrates};

use advancing::Advanced;
use calls::Shown;
use scheduler::{Amendment, Answer, Earliest, Inquiry, Longest, Refusal, Scheduler, Submission};
use spans::{Block, Point};

pub fn submit(d: &mut Scheduler, s: Submission) -> Answer
    requires { Premise d.old }
    ensures { Leaves d.old (calls.submit s) result d.new }
{
    let o = calls::submit(*d, s);
    *d = o.scheduler;
    o.answer
}

pub fn complete(d: &mut Scheduler, ticket: u32) -> Answer
    requires { Premise d.old }
    ensures { Leaves d.old (calls.complete ticket) result d.new }
{
    let o = calls::complete(*d, ticket);
    *d = o.scheduler;
    o.answer
}

pub fn cancel(d: &mut Scheduler, ticket: u32) -> Answer
    requires { Premise d.old }
    ensures { Leaves d.old (calls.cancel ticket) result d.new }
{
    let o = calls::cancel(*d, ticket);
    *d = o.scheduler;
    o.answer
}

// A corrected order for a waiting job (document 02, No. 13).
pub fn amend(d: &mut Scheduler, a: Amendment) -> Answer
    requires { Premise d.old }
    ensures { LeavesAmended d.old a result d.new }
{
    let o = calls::amend(*d, a);
    *d = o.scheduler;
    o.answer
}

pub fn tick(d: &mut Scheduler) -> Answer
    requires { Premise d.old }
    ensures { Leaves d.old calls.tick result d.new }
{
    let o = calls::tick(*d);
    *d = o.scheduler;
    o.answer
}

// So many minutes pass, or fewer: up to the first in which something is due.
pub fn advance(d: &mut Scheduler, minutes: u32) -> Advanced
    requires { Premise d.old }
    ensures { LeavesAdvanced d.old minutes result d.new }
{
    let o = advancing::advance(*d, minutes);
    *d = o.scheduler;
    o.answer
}

// The minute before which the waiting job with this ticket cannot start. The scheduler is only read.
pub fn earliest_start(d: &Scheduler, ticket: u32) -> Earliest
    requires { Premise d.now }
    ensures { result ≡ earliest_start (view d.now) ticket }
{
    calls::earliest_start(*d, ticket)
}

// The largest estimate with which a submission now would be promised the wanted minute or an earlier one. The scheduler is only read.
pub fn longest_estimate(d: &Scheduler, q: Inquiry) -> Longest
    requires { Premise d.now }
    ensures { result ≡ longest_of (view d.now) q }
{
    calls::longest_estimate(*d, q)
}

// The free nodes from now on, into the list lent. A profile leaves the scheduler as it is, so that lending by `&` is enough.
pub fn profile(d: &Scheduler, points: &mut [Point]) -> Shown
    requires { Premise d.now }
    ensures { ShowsPoints d.now points.old result points.new }
{
    calls::profile(*d, points.len()).write_to(points)
}

// The index of the profile, into the list lent.
pub fn index(d: &Scheduler, blocks: &mut [Block]) -> Shown
    requires { Premise d.now }
    ensures { ShowsBlocks d.now blocks.old result blocks.new }
{
    calls::index(*d, blocks.len()).write_to(blocks)
}

// The status page, into the front of the page lent.
pub fn status_page(d: &Scheduler, page: &mut [u8]) -> Shown
    requires { Premise d.now }
    ensures { ShowsPage d.now page.old result page.new }
{
    calls::status_page(*d, page)
}

// The lines of the scheduler, into the front of the bytes lent.
pub fn checkpoint(d: &Scheduler, text: &mut [u8]) -> Shown
    requires { Premise d.now }
    ensures { ShowsText d.now text.old result text.new }
{
    calls::checkpoint(*d, text)
}

// Why each waiting job of a conservative scheduler waits, into the front of the bytes lent.
pub fn why(d: &Scheduler, text: &mut [u8]) -> Shown
    requires { Premise d.now }
    ensures { ShowsWhy d.now text.old result text.new }
{
    calls::why(*d, text)
}

// A scheduler read back from its lines, left where one was lent. The lent place is not read, and may hold anything.
pub fn restore(d: &mut Scheduler, text: &[u8]) -> Refusal
    ensures { Restores text.now result d.new }
{
    let o = calls::restore(text);
    *d = o.scheduler;
    o.refusal
}

// An EASY scheduler becomes a conservative one while jobs run (document 02, No. 12). It is never refused.
pub fn migrate(d: &mut Scheduler)
    requires { Premise d.old }
    ensures { Migrates d.old d.new }
{
    *d = calls::migrate(*d);
}
