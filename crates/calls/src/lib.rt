// The calls on a scheduler of either kind, by value: each goes by the kind's rules.
#![tactic(auto)]

ghost use Rattle.std.specs.Prelude.{◌≡◌, [], ◌≤◌, length, take};
ghost use Rattle.scheduler.specs.Model.{view};
ghost use Rattle.scheduler.specs.Answers.{outcome};
ghost use Rattle.scheduler.specs.Refusals.{wait_refusal};
ghost use Rattle.history.specs.Calls as calls;
ghost use Rattle.easy_rules.specs.EarliestStart.{earliest_start};
ghost use Rattle.guarantees.specs.Rules.{call};
ghost use Rattle.guarantees.specs.Premise.{Premise};
ghost use Rattle.restoring.specs.Restoring.{restoring};
ghost use Rattle.calls.specs.ListCall.{over, listing, listed_in, item_at};
ghost use Rattle.calls.specs.ProfileCall.{profile_outcome};
ghost use Rattle.calls.specs.IndexCall.{index_outcome};
ghost use Rattle.calls.specs.LongestCall.{longest_of};
ghost use Rattle.calls.specs.TextCall.{ShowsPage, ShowsText, ShowsWhy, ShowsBytes};
ghost use Rattle.calls.specs.MigrateCall.{migrating};
ghost use Rattle.calls.specs.AmendCall.{amends};
ghost use Rattle.amending.specs.declared.Way.TheVariants as way;
ghost use Rattle.amending.specs.Ways.{way_of};

use amending::Way;
use scheduler::{
    Amendment, Departure, Earliest, Inquiry, Kind, Longest, Opened, Outcome, Refusal, Request,
    Scheduler, Submission,
};
use spans::{Block, Point};

// The call that the request asks for, by the kind's rules.
pub fn call(d: Scheduler, request: Request) -> Outcome
    requires { Premise d }
    ensures { result ≡ outcome (call (view d) (calls.asked request)) }
{
    match d.settings.kind {
        Kind::Conservative => conservative::call(d, request),
        Kind::Easy => easy::call(d, request),
    }
}

// A job is submitted (document 01: "intake").
pub fn submit(d: Scheduler, s: Submission) -> Outcome
    requires { Premise d }
    ensures { result ≡ outcome (call (view d) (calls.submit s)) }
{
    call(d, Request::Submit(s))
}

// A running job is over before its wall time (document 01: "early end").
pub fn complete(d: Scheduler, ticket: u32) -> Outcome
    requires { Premise d }
    ensures { result ≡ outcome (call (view d) (calls.complete ticket)) }
{
    call(d, Request::Depart(Departure::Complete, ticket))
}

// A waiting job is withdrawn (document 02, No. 1).
pub fn cancel(d: Scheduler, ticket: u32) -> Outcome
    requires { Premise d }
    ensures { result ≡ outcome (call (view d) (calls.cancel ticket)) }
{
    call(d, Request::Depart(Departure::Cancel, ticket))
}

// A corrected order in place, by the kind's rules.
fn amend_in_place(d: Scheduler, a: Amendment) -> Outcome
    requires { Premise d }
    ensures { result ≡ outcome (call (view d) (calls.amend a)) }
{
    match d.settings.kind {
        Kind::Conservative => conservative_amending::amend(d, a),
        Kind::Easy => easy_amending::amend(d, a),
    }
}

// A corrected order that grows: the old ticket is withdrawn, and this submission is taken in. If it is refused, everything stays as it was.
fn resubmit(d: Scheduler, a: Amendment, s: Submission) -> Outcome
    requires { (Premise d) × (way.Anew s ≡ way_of (view d) a) }
    ensures { result ≡ amends d a }
{
    let withdrawn = cancel(d, a.ticket);
    let taken = submit(withdrawn.scheduler, s);
    let refusal = taken.answer.refusal;
    if refusal.is_none() {
        return Outcome {
            answer: amend_answer::both(withdrawn.answer, taken.answer),
            ..taken
        };
    }
    d.refused(refusal)
}

// A corrected order for a waiting job (document 02, No. 13): in place, or withdrawn and taken in anew where it grows.
pub fn amend(d: Scheduler, a: Amendment) -> Outcome
    requires { Premise d }
    ensures { result ≡ amends d a }
{
    match amending::way_of(d, a) {
        Way::Refused(refusal) => d.refused(refusal),
        Way::Anew(s) => resubmit(d, a, s),
        Way::InPlace => amend_in_place(d, a),
    }
}

// One minute passes (document 01: "minute step").
pub fn tick(d: Scheduler) -> Outcome
    requires { Premise d }
    ensures { result ≡ outcome (call (view d) calls.tick) }
{
    call(d, Request::Tick)
}

// The answer of a call that fills a lent list or page: the refusal, and how many elements were written.
#[derive(Clone, Copy)]
pub struct Shown {
    pub refusal: Refusal,
    pub count: usize,
}

// What a call that fills a lent list gives, before it is written: how many items there are to write, the answer, and the items. The places past the
// count are all blank.
#[derive(Clone, Copy)]
pub struct Listing<T, const N: usize> {
    pub count: usize,
    pub answer: Shown,
    pub items: [T; N],
}

impl<T: Copy, const N: usize> Listing<T, N> {
    // No item is to be written.
    fn none(refusal: Refusal, blank: T) -> Listing<T, N>
        ensures { result ≡ listing N blank refusal [] }
    {
        Listing {
            count: 0,
            answer: Shown { refusal, count: 0 },
            items: [blank; N],
        }
    }

    // All the items, or a refusal where there is no room for them.
    fn within(room: usize, items: [T; N], count: usize, blank: T) -> Listing<T, N>
        ensures { result ≡ listed_in N blank items count room }
    {
        if room < count {
            return Listing::none(Refusal::TooShort, blank);
        }
        Listing {
            count,
            answer: Shown {
                refusal: Refusal::None,
                count,
            },
            items,
        }
    }

    // The items at the front of a lent list, and the answer.
    pub fn write_to(self, lent: &mut [T]) -> Shown
        requires { (self.count ≤ N) × (self.count ≤ length lent.old) }
        ensures { (result ≡ self.answer) × (lent.new ≡ over (take self.count self.items) lent.old) }
    {
        lent[..self.count].copy_from_slice(&self.items[..self.count]);
        self.answer
    }

    // The item in a place; past the last one, a blank.
    pub fn at(self, i: usize, blank: T) -> T
        ensures { result ≡ item_at self blank i }
    {
        self.items.get(i).copied().unwrap_or(blank)
    }
}

// The points of a profile.
pub type ProfileOutcome = Listing<Point, 129>;

// The blocks of an index.
pub type IndexOutcome = Listing<Block, 9>;

pub const NO_POINT: Point = Point { minute: 0, free: 0 };

pub const NO_BLOCK: Block = Block { fewest: 0, most: 0 };

// The free nodes from now on, for a list of `room` points. EASY has no profile: it has no point to write.
pub fn profile(d: Scheduler, room: usize) -> ProfileOutcome
    requires { Premise d }
    ensures { result ≡ profile_outcome (view d) room }
{
    match d.settings.kind {
        Kind::Conservative => {
            let p = conservative_plan::profile_of(d);
            Listing::within(room, p.points, p.count, NO_POINT)
        }
        Kind::Easy => Listing::none(Refusal::None, NO_POINT),
    }
}

// The index of the profile (document 02, No. 5), for a list of `room` blocks. EASY has none to write.
pub fn index(d: Scheduler, room: usize) -> IndexOutcome
    requires { Premise d }
    ensures { result ≡ index_outcome (view d) room }
{
    match d.settings.kind {
        Kind::Conservative => {
            let p = conservative_plan::index_of(d);
            Listing::within(room, p.list, p.count, NO_BLOCK)
        }
        Kind::Easy => Listing::none(Refusal::None, NO_BLOCK),
    }
}

// The minute before which the waiting job with this ticket cannot start (document 02, No. 7: "soonest minute"), for either kind.
pub fn earliest_start(d: Scheduler, ticket: u32) -> Earliest
    requires { Premise d }
    ensures { result ≡ earliest_start (view d) ticket }
{
    earliest::start(d, ticket)
}

// The largest estimate with which a submission now would be promised the wanted minute or an earlier one (document 02, No. 9). EASY makes no
// promises and has nothing to answer.
pub fn longest_estimate(d: Scheduler, q: Inquiry) -> Longest
    requires { Premise d }
    ensures { result ≡ longest_of (view d) q }
{
    match d.settings.kind {
        Kind::Conservative => longest::estimate(d, q),
        Kind::Easy => Longest {
            refusal: Refusal::None,
            estimate: 0,
        },
    }
}

// The status page (document 02, No. 8: "the board in the corridor") of a scheduler of either kind, into the front of the page lent.
pub fn status_page(d: Scheduler, page: &mut [u8]) -> Shown
    requires { Premise d }
    ensures { ShowsPage d page.old result page.new }
{
    if page.len() < status_page::PAGE {
        return Shown {
            refusal: Refusal::TooShort,
            count: 0,
        };
    }
    let count = status_page::put_page(page, d);
    Shown {
        refusal: Refusal::None,
        count,
    }
}

// Copies a text into the front of the bytes lent, if there is room for it.
fn show_bytes(lent: &mut [u8], written: &[u8]) -> Shown
    ensures { ShowsBytes written.now lent.old result lent.new }
{
    if lent.len() < written.len() {
        return Shown {
            refusal: Refusal::TooShort,
            count: 0,
        };
    }
    let count = text::put_word(lent, 0, written);
    Shown {
        refusal: Refusal::None,
        count,
    }
}

// The lines of a scheduler of either kind (document 02, No. 11: "A desk must be written out"), into the front of the bytes lent.
pub fn checkpoint(d: Scheduler, text: &mut [u8]) -> Shown
    requires { Premise d }
    ensures { ShowsText d text.old result text.new }
{
    let mut page = [0u8; checkpoint_writing::PAGE];
    let count = checkpoint_writing::put_text(&mut page, d);
    show_bytes(text, &page[..count])
}

// Why each waiting job of a conservative scheduler waits, one sentence per job (document 02, No. 14), into the front of the bytes lent. EASY has
// nothing to write.
pub fn why(d: Scheduler, text: &mut [u8]) -> Shown
    requires { Premise d }
    ensures { ShowsWhy d text.old result text.new }
{
    let mut page = [0u8; why_writing::PAGE];
    let count = why_writing::put_why(&mut page, d);
    show_bytes(text, &page[..count])
}

// The scheduler that lines give back (document 02, No. 11: "A desk must be written out and read back"). A reading that is refused, by 22 or 23, hands
// back an empty one.
pub fn restore(text: &[u8]) -> Opened
    ensures { result ≡ restoring text.now }
{
    restoring::restore(text)
}

// An EASY scheduler becomes a conservative one while jobs run (document 02, No. 12: "From the Loose Desk to the new one"). It is never refused; a
// conservative scheduler is handed back as it is.
pub fn migrate(d: Scheduler) -> Scheduler
    requires { Premise d }
    ensures { result ≡ migrating d }
{
    match d.settings.kind {
        Kind::Conservative => d,
        Kind::Easy => migration::migrate(d),
    }
}

// Why a wait of `minutes` is refused, if it is. A wait that is not refused is that number of ticks.
pub fn wait_refusal(d: Scheduler, minutes: u32) -> Refusal
    requires { Premise d }
    ensures { result ≡ wait_refusal (view d) minutes }
{
    if scheduler::outside_range(minutes, 1, Scheduler::LONGEST_WAIT) {
        return Refusal::MinutesOutOfRange;
    }
    if Scheduler::HORIZON < d.clock + minutes {
        return Refusal::PastHorizon;
    }
    Refusal::None
}
