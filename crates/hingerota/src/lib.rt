// The calls for a host program in C or Rust, exported by plain names. The header is host/include/hingerota.h. An exported function can hold no
// enum, so the host's desk is the scheduler in numbers. Each call reads it and mirrors the result back.
#![tactic(auto)]

ghost use Rattle.std.specs.Prelude.{◌≡◌, true};
ghost use Rattle.scheduler.specs.Answers.{code};
ghost use Rattle.history.specs.Calls as calls;
ghost use Rattle.hingerota.specs.Mirror.{kind_of, kind_number, state_of, state_number, wanted, mirror_job, mirror, read_record, read};
ghost use Rattle.hingerota.specs.Mirror.{mirror_tickets, mirror_answer, mirror_outcome, mirror_opened};
ghost use Rattle.lists.specs.Every.{every};
ghost use Rattle.hingerota.specs.DeskPremise.{Handed, gives, opens, opening_of, promise_opening, loose_opening, restores, amendment_of, amends_on};
ghost use Rattle.hingerota.specs.Checks.{is_zero, all_zero, is_job, follows, in_order, check_number};
ghost use Rattle.hingerota.specs.CallContract.{HostLeaves, HostLeavesAmended};
ghost use Rattle.hingerota.specs.AdvanceContract.{advances_on, HostLeavesAdvanced};
ghost use Rattle.hingerota.specs.ListContract.{mirror_shown, mirror_listing};
ghost use Rattle.hingerota.specs.ProfileContract.{mirror_point, points_in, HostShowsPoints};
ghost use Rattle.hingerota.specs.IndexContract.{mirror_block, blocks_in, HostShowsBlocks};
ghost use Rattle.hingerota.specs.EarliestContract.{mirror_earliest, earliest_on};
ghost use Rattle.hingerota.specs.LongestContract.{asked_by, mirror_longest, longest_on};
ghost use Rattle.hingerota.specs.TextContract.{HostShowsPage, HostShowsText, HostShowsWhy};
ghost use Rattle.hingerota.specs.MigrateContract.{migrated_desk, HostMigrates};
ghost use Rattle.hingerota.specs.Waits.{wait_number};

use scheduler::{Job, Kind, Refusal, Scheduler, Settings, State, Submission, Tenant};

// What a desk is opened with: the machine's nodes, the first minute, the first ticket, for how many minutes nodes stay taken after a run, and how
// many live jobs A and B may have.
#[repr(C)]
#[derive(Clone, Copy)]
pub struct Opening {
    pub nodes: u32,
    pub minute: u32,
    pub ticket: u32,
    pub cleanup: u32,
    pub quota_a: u32,
    pub quota_b: u32,
}

// What is asked for a job. The estimate is the most that it runs, and the tenant is a letter, A (65) or B (66).
#[repr(C)]
#[derive(Clone, Copy)]
pub struct Order {
    pub nodes: u32,
    pub estimate: u32,
    pub tenant: u32,
    pub least: u32,
}

// A corrected order for the waiting job with this ticket: what is asked for it from now on. Its tenant stays.
#[repr(C)]
#[derive(Clone, Copy)]
pub struct Amendment {
    pub ticket: u32,
    pub nodes: u32,
    pub estimate: u32,
    pub least: u32,
}

// A job in numbers: state 0 unused, 1 waiting, 2 running, 3 in cleanup; the tenant's letter, 0 if unused.
#[repr(C)]
#[derive(Clone, Copy)]
pub struct Record {
    pub ticket: u32,
    pub nodes: u16,
    pub estimate: u16,
    pub state: u32,
    pub tenant: u16,
    pub least: u16,
    pub start: u32,
    pub promise: u32,
    pub end: u32,
    pub submitted: u32,
    pub rank: u32,
    pub forecast: u32,
}

// A scheduler in numbers: kind 0 conservative, 1 EASY.
#[repr(C)]
#[derive(Clone, Copy)]
pub struct Desk {
    pub kind: u32,
    pub nodes: u32,
    pub cleanup: u32,
    pub quota_a: u32,
    pub quota_b: u32,
    pub clock: u32,
    pub next: u32,
    pub jobs: [Record; 64],
}

#[repr(C)]
#[derive(Clone, Copy)]
pub struct Tickets {
    pub count: usize,
    pub list: [u32; 64],
}

// What a call answers; the refusal is the number of documents 01 and 02.
#[repr(C)]
#[derive(Clone, Copy)]
pub struct Answer {
    pub refusal: u32,
    pub ticket: u32,
    pub promise: u32,
    // how many points of the profile were read for the promise
    pub reads: u32,
    pub head: u32,
    pub forecast: u32,
    pub ended: Tickets,
    pub started: Tickets,
}

#[derive(Clone, Copy)]
pub struct Outcome {
    pub answer: Answer,
    pub desk: Desk,
}

// What minutes that pass at once answer: the answer to the last of them, and how many have passed.
#[repr(C)]
#[derive(Clone, Copy)]
pub struct Advanced {
    pub answer: Answer,
    pub minutes: u32,
}

#[derive(Clone, Copy)]
pub struct AdvanceOutcome {
    pub answer: Advanced,
    pub desk: Desk,
}

#[repr(C)]
#[derive(Clone, Copy)]
pub struct Opened {
    pub refusal: u32,
    pub desk: Desk,
}

// `free` nodes are free from `minute` on.
#[repr(C)]
#[derive(Clone, Copy)]
pub struct Point {
    pub minute: u32,
    pub free: u32,
}

// Of a block of 16 points: the fewest free nodes, and the most.
#[repr(C)]
#[derive(Clone, Copy)]
pub struct Block {
    pub fewest: u32,
    pub most: u32,
}

// What a call for the profile, the index, the status page or the lines answers; the refusal is the number of documents 01 and 02.
#[repr(C)]
#[derive(Clone, Copy)]
pub struct Shown {
    pub refusal: u32,
    pub count: usize,
}

// The minute before which a waiting job cannot start; the refusal is document 02's number, and the minute is then 0.
#[repr(C)]
#[derive(Clone, Copy)]
pub struct Earliest {
    pub refusal: u32,
    pub minute: u32,
}

// The question how long a job of this many nodes may be, submitted now by the tenant of this letter, to start by this minute.
#[repr(C)]
#[derive(Clone, Copy)]
pub struct Inquiry {
    pub nodes: u32,
    pub tenant: u32,
    pub minute: u32,
}

// The largest estimate that starts in time; 0 if there is none. The refusal is document 02's number, and the estimate is then 0.
#[repr(C)]
#[derive(Clone, Copy)]
pub struct Longest {
    pub refusal: u32,
    pub estimate: u32,
}

// What a call that fills a lent list gives, before it is written: how many items there are to write, the answer, and the items.
#[derive(Clone, Copy)]
pub struct Listing<T, const N: usize> {
    pub count: usize,
    pub answer: Shown,
    pub items: [T; N],
}

fn kind_of(n: u32) -> Kind
    ensures { result ≡ kind_of n }
{
    if n == 1 {
        return Kind::Easy;
    }
    Kind::Conservative
}

fn kind_number(k: Kind) -> u32
    ensures { result ≡ kind_number k }
{
    match k {
        Kind::Conservative => 0,
        Kind::Easy => 1,
    }
}

fn state_of(n: u32) -> State
    ensures { result ≡ state_of n }
{
    if n == 1 {
        return State::Waiting;
    }
    if n == 2 {
        return State::Running;
    }
    if n == 3 {
        return State::Cleanup;
    }
    State::Unused
}

fn state_number(s: State) -> u32
    ensures { result ≡ state_number s }
{
    match s {
        State::Unused => 0,
        State::Waiting => 1,
        State::Running => 2,
        State::Cleanup => 3,
    }
}

fn read_record(r: Record) -> Job
    ensures { result ≡ read_record r }
{
    Job {
        ticket: r.ticket,
        nodes: r.nodes,
        estimate: r.estimate,
        state: state_of(r.state),
        tenant: Tenant::of_letter(r.tenant as u32),
        least: r.least,
        start: r.start,
        promise: r.promise,
        end: r.end,
        submitted: r.submitted,
        rank: r.rank,
        forecast: r.forecast,
    }
}

fn mirror_job(j: Job) -> Record
    ensures { result ≡ mirror_job j }
{
    Record {
        ticket: j.ticket,
        nodes: j.nodes,
        estimate: j.estimate,
        state: state_number(j.state),
        tenant: j.tenant.letter() as u16,
        least: j.least,
        start: j.start,
        promise: j.promise,
        end: j.end,
        submitted: j.submitted,
        rank: j.rank,
        forecast: j.forecast,
    }
}

fn read(d: Desk) -> Scheduler
    ensures { result ≡ read d }
{
    let mut jobs = [Job::unused(); 64];
    for (i, &r) in d.jobs.iter().enumerate() {
        jobs[i] = read_record(r);
    }
    Scheduler {
        settings: Settings {
            kind: kind_of(d.kind),
            nodes: d.nodes,
            cleanup: d.cleanup,
            quota_a: d.quota_a,
            quota_b: d.quota_b,
            longest: Scheduler::LONGEST_ESTIMATE,
        },
        clock: d.clock,
        next: d.next,
        jobs,
    }
}

fn mirror(s: Scheduler) -> Desk
    ensures { result ≡ mirror s }
{
    let mut jobs = [mirror_job(Job::unused()); 64];
    for (i, &j) in s.jobs.iter().enumerate() {
        jobs[i] = mirror_job(j);
    }
    Desk {
        kind: kind_number(s.settings.kind),
        nodes: s.settings.nodes,
        cleanup: s.settings.cleanup,
        quota_a: s.settings.quota_a,
        quota_b: s.settings.quota_b,
        clock: s.clock,
        next: s.next,
        jobs,
    }
}

impl From<scheduler::Tickets> for Tickets {
    ghost from_gives = { λ t r. r ≡ mirror_tickets t };

    fn from(t: scheduler::Tickets) -> Tickets {
        let list = t.list;
        Tickets {
            count: t.count,
            list,
        }
    }
}

impl From<scheduler::Answer> for Answer {
    ghost from_gives = { λ a r. r ≡ mirror_answer a };

    fn from(a: scheduler::Answer) -> Answer {
        Answer {
            refusal: a.refusal.code(),
            ticket: a.ticket,
            promise: a.promise,
            reads: a.reads,
            head: a.head,
            forecast: a.forecast,
            ended: a.ended.into(),
            started: a.started.into(),
        }
    }
}

impl From<scheduler::Outcome> for Outcome {
    ghost from_gives = { λ o r. r ≡ mirror_outcome o };

    fn from(o: scheduler::Outcome) -> Outcome {
        Outcome {
            answer: o.answer.into(),
            desk: mirror(o.scheduler),
        }
    }
}

impl From<scheduler::Opened> for Opened {
    ghost from_gives = { λ p r. r ≡ mirror_opened p };

    fn from(p: scheduler::Opened) -> Opened {
        Opened {
            refusal: p.refusal.code(),
            desk: mirror(p.scheduler),
        }
    }
}

impl From<calls::Shown> for Shown {
    ghost from_gives = { λ a r. r ≡ mirror_shown a };

    fn from(a: calls::Shown) -> Shown {
        Shown {
            refusal: a.refusal.code(),
            count: a.count,
        }
    }
}

impl From<spans::Point> for Point {
    ghost from_gives = { λ p r. r ≡ mirror_point p };

    fn from(p: spans::Point) -> Point {
        Point {
            minute: p.minute,
            free: p.free,
        }
    }
}

impl From<spans::Block> for Block {
    ghost from_gives = { λ p r. r ≡ mirror_block p };

    fn from(p: spans::Block) -> Block {
        Block {
            fewest: p.fewest,
            most: p.most,
        }
    }
}

impl From<scheduler::Earliest> for Earliest {
    ghost from_gives = { λ e r. r ≡ mirror_earliest e };

    fn from(e: scheduler::Earliest) -> Earliest {
        Earliest {
            refusal: e.refusal.code(),
            minute: e.minute,
        }
    }
}

impl From<scheduler::Longest> for Longest {
    ghost from_gives = { λ l r. r ≡ mirror_longest l };

    fn from(l: scheduler::Longest) -> Longest {
        Longest {
            refusal: l.refusal.code(),
            estimate: l.estimate,
        }
    }
}

impl From<Order> for Submission {
    ghost from_gives = { λ o r. r ≡ wanted o };

    fn from(o: Order) -> Submission {
        Submission {
            nodes: o.nodes,
            estimate: o.estimate,
            tenant: Tenant::of_letter(o.tenant),
            least: o.least,
        }
    }
}

impl From<Amendment> for scheduler::Amendment {
    ghost from_gives = { λ a r. r ≡ amendment_of a };

    fn from(a: Amendment) -> scheduler::Amendment {
        scheduler::Amendment {
            ticket: a.ticket,
            nodes: a.nodes,
            estimate: a.estimate,
            least: a.least,
        }
    }
}

impl From<Inquiry> for scheduler::Inquiry {
    ghost from_gives = { λ q r. r ≡ asked_by q };

    fn from(q: Inquiry) -> scheduler::Inquiry {
        scheduler::Inquiry {
            nodes: q.nodes,
            tenant: Tenant::of_letter(q.tenant),
            minute: q.minute,
        }
    }
}

fn mirror_listing<T: Copy, const N: usize>(p: calls::Listing<T, N>) -> Listing<T, N>
    ensures { result ≡ mirror_listing p }
{
    Listing {
        count: p.count,
        answer: p.answer.into(),
        items: p.items,
    }
}

// ## Whether numbers are a desk

fn all_zero(numbers: &[u32]) -> bool
    ensures { result ≡ every is_zero numbers.now }
{
    for &n in numbers {
        if n != 0 {
            return false;
        }
    }
    true
}

fn is_zero(r: Record) -> bool
    ensures { result ≡ all_zero r }
{
    let numbers = [
        r.ticket,
        r.nodes as u32,
        r.estimate as u32,
        r.state,
        r.tenant as u32,
        r.least as u32,
        r.start,
        r.promise,
        r.end,
        r.submitted,
        r.rank,
        r.forecast,
    ];
    all_zero(&numbers)
}

// Whether a live record has the number of a state, and the letter of a tenant or nobody's.
fn is_job(r: Record) -> bool
    ensures { result ≡ is_job r }
{
    if r.state <= 3 {
        let letter = r.tenant as u32;
        let tenant = Tenant::of_letter(letter);
        return tenant.letter() == letter;
    }
    false
}

// Whether a record can stand after others, which are all live or not.
fn follows(live: bool, r: Record) -> bool
    ensures { result ≡ follows live r }
{
    if r.state == 0 {
        return is_zero(r);
    }
    if live {
        return is_job(r);
    }
    false
}

// Whether the live records stand first, and the others are all zero.
fn in_order(d: Desk) -> bool
    ensures { result ≡ in_order true d.jobs }
{
    let mut live = true;
    for &r in &d.jobs {
        if !follows(live, r) {
            return false;
        }
        live = r.state != 0;
    }
    true
}

fn check(d: Desk) -> u32
    ensures { result ≡ check_number d }
{
    let rejected = Refusal::TextRejected.code();
    if 1 < d.kind {
        return rejected;
    }
    if in_order(d) {
        if acceptance::accepted(read(d)) {
            return 0;
        }
        return rejected;
    }
    rejected
}

// ## By value

fn open(kind: Kind, o: Opening) -> Opened
    ensures { result ≡ opens (opening_of kind o) }
{
    Scheduler::open(scheduler::Opening {
        settings: Settings {
            kind,
            nodes: o.nodes,
            cleanup: o.cleanup,
            quota_a: o.quota_a,
            quota_b: o.quota_b,
            longest: Scheduler::LONGEST_ESTIMATE,
        },
        minute: o.minute,
        ticket: o.ticket,
    })
    .into()
}

fn submit(d: Desk, order: Order) -> Outcome
    requires { Handed d }
    ensures { result ≡ gives d (calls.submit (wanted order)) }
{
    calls::submit(read(d), order.into()).into()
}

fn complete(d: Desk, ticket: u32) -> Outcome
    requires { Handed d }
    ensures { result ≡ gives d (calls.complete ticket) }
{
    calls::complete(read(d), ticket).into()
}

fn cancel(d: Desk, ticket: u32) -> Outcome
    requires { Handed d }
    ensures { result ≡ gives d (calls.cancel ticket) }
{
    calls::cancel(read(d), ticket).into()
}

fn amend(d: Desk, amendment: Amendment) -> Outcome
    requires { Handed d }
    ensures { result ≡ amends_on d amendment }
{
    calls::amend(read(d), amendment.into()).into()
}

fn tick(d: Desk) -> Outcome
    requires { Handed d }
    ensures { result ≡ gives d calls.tick }
{
    calls::tick(read(d)).into()
}

fn advance(d: Desk, minutes: u32) -> AdvanceOutcome
    requires { Handed d }
    ensures { result ≡ advances_on d minutes }
{
    let o = advancing::advance(read(d), minutes);
    AdvanceOutcome {
        answer: Advanced {
            answer: o.answer.answer.into(),
            minutes: o.answer.minutes,
        },
        desk: mirror(o.scheduler),
    }
}

fn profile(d: Desk, room: usize) -> Listing<spans::Point, 129>
    requires { Handed d }
    ensures { result ≡ points_in d room }
{
    mirror_listing(calls::profile(read(d), room))
}

fn index(d: Desk, room: usize) -> Listing<spans::Block, 9>
    requires { Handed d }
    ensures { result ≡ blocks_in d room }
{
    mirror_listing(calls::index(read(d), room))
}

fn earliest_start(d: Desk, ticket: u32) -> Earliest
    requires { Handed d }
    ensures { result ≡ earliest_on d ticket }
{
    calls::earliest_start(read(d), ticket).into()
}

fn longest_estimate(d: Desk, inquiry: Inquiry) -> Longest
    requires { Handed d }
    ensures { result ≡ longest_on d inquiry }
{
    calls::longest_estimate(read(d), inquiry.into()).into()
}

fn status_page(d: Desk, page: &mut [u8]) -> Shown
    requires { Handed d }
    ensures { HostShowsPage d page.old result page.new }
{
    calls::status_page(read(d), page).into()
}

fn checkpoint(d: Desk, text: &mut [u8]) -> Shown
    requires { Handed d }
    ensures { HostShowsText d text.old result text.new }
{
    calls::checkpoint(read(d), text).into()
}

fn why(d: Desk, text: &mut [u8]) -> Shown
    requires { Handed d }
    ensures { HostShowsWhy d text.old result text.new }
{
    calls::why(read(d), text).into()
}

fn migrate(d: Desk) -> Desk
    requires { Handed d }
    ensures { result ≡ migrated_desk d }
{
    mirror(calls::migrate(read(d)))
}

fn wait_refusal(d: Desk, minutes: u32) -> u32
    requires { Handed d }
    ensures { result ≡ wait_number d minutes }
{
    calls::wait_refusal(read(d), minutes).code()
}

// ## Exported

// An empty desk of conservative backfilling (document 01: "Promise Desk").
#[unsafe(no_mangle)]
pub extern "C" fn hingerota_open_promise(opening: Opening) -> Opened
    ensures { result ≡ opens (promise_opening opening) }
{
    open(Kind::Conservative, opening)
}

// An empty desk of EASY backfilling (document 01: "Loose Desk").
#[unsafe(no_mangle)]
pub extern "C" fn hingerota_open_loose(opening: Opening) -> Opened
    ensures { result ≡ opens (loose_opening opening) }
{
    open(Kind::Easy, opening)
}

// A desk of either kind that is read back from its lines (document 02, No. 11). A refused reading hands back an empty Promise Desk.
#[unsafe(no_mangle)]
pub extern "C" fn hingerota_restore(text: &[u8]) -> Opened
    ensures { result ≡ restores text.now }
{
    Opened::from(calls::restore(text))
}

// Whether these numbers, whatever they are, are a desk that may be passed to the other calls: 0, or 23.
#[unsafe(no_mangle)]
pub extern "C" fn hingerota_check(d: &Desk) -> u32
    ensures { result ≡ check_number d.now }
{
    check(*d)
}

// A job is submitted.
#[unsafe(no_mangle)]
pub extern "C" fn hingerota_submit(d: &mut Desk, order: Order) -> Answer
    requires { Handed d.old }
    ensures { HostLeaves d.old (calls.submit (wanted order)) result d.new }
{
    let s = submit(*d, order);
    *d = s.desk;
    s.answer
}

// A running job is over before its wall time.
#[unsafe(no_mangle)]
pub extern "C" fn hingerota_complete(d: &mut Desk, ticket: u32) -> Answer
    requires { Handed d.old }
    ensures { HostLeaves d.old (calls.complete ticket) result d.new }
{
    let s = complete(*d, ticket);
    *d = s.desk;
    s.answer
}

// A waiting job is withdrawn.
#[unsafe(no_mangle)]
pub extern "C" fn hingerota_cancel(d: &mut Desk, ticket: u32) -> Answer
    requires { Handed d.old }
    ensures { HostLeaves d.old (calls.cancel ticket) result d.new }
{
    let s = cancel(*d, ticket);
    *d = s.desk;
    s.answer
}

// A waiting job gets a corrected order (document 02, No. 13).
#[unsafe(no_mangle)]
pub extern "C" fn hingerota_amend(d: &mut Desk, amendment: Amendment) -> Answer
    requires { Handed d.old }
    ensures { HostLeavesAmended d.old amendment result d.new }
{
    let s = amend(*d, amendment);
    *d = s.desk;
    s.answer
}

// One minute passes.
#[unsafe(no_mangle)]
pub extern "C" fn hingerota_tick(d: &mut Desk) -> Answer
    requires { Handed d.old }
    ensures { HostLeaves d.old calls.tick result d.new }
{
    let s = tick(*d);
    *d = s.desk;
    s.answer
}

// So many minutes pass, or fewer: up to the first in which something is due.
#[unsafe(no_mangle)]
pub extern "C" fn hingerota_advance(d: &mut Desk, minutes: u32) -> Advanced
    requires { Handed d.old }
    ensures { HostLeavesAdvanced d.old minutes result d.new }
{
    let s = advance(*d, minutes);
    *d = s.desk;
    s.answer
}

// The free nodes from now on, into the list lent. Only the Promise Desk has them.
#[unsafe(no_mangle)]
pub extern "C" fn hingerota_profile(d: &Desk, points: &mut [Point]) -> Shown
    requires { Handed d.now }
    ensures { HostShowsPoints d.now points.old result points.new }
{
    let p = profile(*d, points.len());
    for i in 0..p.count {
        points[i] = p.items[i].into();
    }
    p.answer
}

// The index of the profile, into the list lent. Only the Promise Desk has it.
#[unsafe(no_mangle)]
pub extern "C" fn hingerota_index(d: &Desk, blocks: &mut [Block]) -> Shown
    requires { Handed d.now }
    ensures { HostShowsBlocks d.now blocks.old result blocks.new }
{
    let p = index(*d, blocks.len());
    for i in 0..p.count {
        blocks[i] = p.items[i].into();
    }
    p.answer
}

// The minute before which the waiting job with this ticket cannot start. The desk is only read.
#[unsafe(no_mangle)]
pub extern "C" fn hingerota_earliest_start(d: &Desk, ticket: u32) -> Earliest
    requires { Handed d.now }
    ensures { result ≡ earliest_on d.now ticket }
{
    earliest_start(*d, ticket)
}

// The largest estimate with which a submission now would be promised the wanted minute or an earlier one. Only the Promise Desk answers this. The
// desk is only read.
#[unsafe(no_mangle)]
pub extern "C" fn hingerota_longest_estimate(d: &Desk, inquiry: Inquiry) -> Longest
    requires { Handed d.now }
    ensures { result ≡ longest_on d.now inquiry }
{
    longest_estimate(*d, inquiry)
}

// The status page of a desk of either kind, into the front of the page lent.
#[unsafe(no_mangle)]
pub extern "C" fn hingerota_status_page(d: &Desk, page: &mut [u8]) -> Shown
    requires { Handed d.now }
    ensures { HostShowsPage d.now page.old result page.new }
{
    status_page(*d, page)
}

// The lines of a desk of either kind (document 02, No. 11), into the front of the bytes lent: 7,375 bytes are always enough.
#[unsafe(no_mangle)]
pub extern "C" fn hingerota_checkpoint(d: &Desk, text: &mut [u8]) -> Shown
    requires { Handed d.now }
    ensures { HostShowsText d.now text.old result text.new }
{
    checkpoint(*d, text)
}

// Why each waiting job of a Promise Desk waits (document 02, No. 14), into the front of the bytes lent: 74,752 bytes are always enough.
#[unsafe(no_mangle)]
pub extern "C" fn hingerota_why(d: &Desk, text: &mut [u8]) -> Shown
    requires { Handed d.now }
    ensures { HostShowsWhy d.now text.old result text.new }
{
    why(*d, text)
}

// An EASY desk becomes a conservative one while jobs run (document 02, No. 12: "From the Loose Desk to the new one"). It is never refused; a
// Promise Desk stays as it is.
#[unsafe(no_mangle)]
pub extern "C" fn hingerota_migrate(d: &mut Desk)
    requires { Handed d.old }
    ensures { HostMigrates d.old d.new }
{
    *d = migrate(*d);
}

// The number by which a wait of `minutes` is refused, or 0: then it is that number of ticks. The desk is only read.
#[unsafe(no_mangle)]
pub extern "C" fn hingerota_wait_refusal(d: &Desk, minutes: u32) -> u32
    requires { Handed d.now }
    ensures { result ≡ wait_number d.now minutes }
{
    wait_refusal(*d, minutes)
}
