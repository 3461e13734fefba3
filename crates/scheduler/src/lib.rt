// The scheduler of one machine (document 01: "desk", "rack"): its limits, its jobs by value, opening, and what calls answer.
#![tactic(auto)]

ghost use Rattle.std.specs.Prelude.{◌≡◌, ◌≤◌};
ghost use Rattle.scheduler.specs.Limits.{max_nodes, longest_estimate, limits, outside, misdivided};
ghost use Rattle.scheduler.specs.Jobs.{unused, fresh, entered, foretold, job_at, cleaning, is_running, is_cleaning, is_holding, too_early, released_at, picks};
ghost use Rattle.scheduler.specs.Tenants.{known, number, same_tenant, tenant_of, letter_of};
ghost use Rattle.scheduler.specs.Settings.{refused_settings, quota, longest, cleanup, run_time, hold_time, unit};
ghost use Rattle.scheduler.specs.Times.{LongestWithin};
ghost use Rattle.scheduler.specs.Table.{tickets, one_if};
ghost use Rattle.scheduler.specs.Model.{store, empty};
ghost use Rattle.scheduler.specs.Answers.{code, accepts, refused_answer, refused_outcome, no_tickets};
ghost use Rattle.scheduler.specs.Opening.{opening_refusal, opened};

// Which rules the scheduler follows: conservative backfilling ("Promise Desk") or EASY backfilling ("Loose Desk").
#[derive(Clone, Copy, PartialEq, Eq)]
pub enum Kind {
    Conservative,
    Easy,
}

#[derive(Clone, Copy, PartialEq, Eq)]
pub enum State {
    Unused,
    Waiting,
    Running,
    Cleanup,
}

// Whose job it is (document 02, No. 4: the "houses" A and B). An unused slot is nobody's. A submission that names neither A nor B is nobody's too.
#[derive(Clone, Copy, PartialEq, Eq)]
pub enum Tenant {
    Nobody,
    A,
    B,
}

// A live job (document 01: "stack", "record"), or an unused slot, which is all zero. A job in cleanup has run: it keeps its end, which is 0 in
// every other record, and its nodes stay taken. The estimate is the most that the job runs, and the plan goes by it; the least is the earliest that
// it can be over. EASY keeps three more values of a job until it leaves: the minute in which it was submitted, its rank then (document 01: "r") and
// its forecast, 0 if it has none. In conservative backfilling all three are 0 (document 02, No. 11). Nodes and run lengths have 16 bits: a
// scheduler copies its 64 jobs wherever it is handed on.
// Kept: what may not change needs 0 for no end, promise and forecast (the definitions `unused`, `cleaning` and `fresh`).
#[derive(Clone, Copy)]
pub struct Job {
    pub ticket: u32,
    pub nodes: u16,
    pub estimate: u16,
    pub state: State,
    pub tenant: Tenant,
    pub least: u16,
    pub start: u32,
    pub promise: u32,
    pub end: u32,
    pub submitted: u32,
    pub rank: u32,
    pub forecast: u32,
}

// What an opening fixes: the rules, the machine's nodes, for how many minutes nodes stay taken after a run (document 02: "clearing"), how many live
// jobs each tenant may have ("places"), and the longest estimate that a submission may have.
#[derive(Clone, Copy)]
pub struct Settings {
    pub kind: Kind,
    pub nodes: u32,
    pub cleanup: u32,
    pub quota_a: u32,
    pub quota_b: u32,
    pub longest: u32,
}

// The live jobs stand first, in ticket order; the slots after them are unused.
#[derive(Clone, Copy)]
pub struct Scheduler {
    pub settings: Settings,
    pub clock: u32,
    pub next: u32,
    pub jobs: [Job; 64],
}

#[derive(Clone, Copy)]
pub struct Limits {
    pub nodes: u32,
    pub horizon: u32,
    pub live: usize,
    pub longest_estimate: u32,
    pub longest_wait: u32,
    pub longest_cleanup: u32,
    pub longest_hold: u32,
    pub last_ticket: u32,
}

// Why a call is refused; `code` gives the documents' number. (4, "64 stacks live", has gone with the quotas.)
// Kept: what may not change needs None among the refusals, and a value of 0 beside one in Answer, Earliest, Longest and Opened (the definitions
// `verdict`, `accepts`, `refusing` and `opened`).
#[derive(Clone, Copy, PartialEq, Eq)]
pub enum Refusal {
    None = 0,
    NodesOutOfRange = 1,
    MinutesOutOfRange = 2,
    OpeningOutOfRange = 3,
    NoTicketLeft = 5,
    PastHorizon = 6,
    NotRunning = 7,
    Malformed = 9,
    TooShort = 10,
    NotWaiting = 11,
    CleanupOutOfRange = 12,
    QuotasOutOfRange = 13,
    UnknownTenant = 14,
    QuotaFull = 15,
    LongestOutOfRange = 16,
    ArrivalFalls = 17,
    NoRunLength = 18,
    LeastAboveMost = 19,
    BeforeLeast = 20,
    WantedMinutePast = 21,
    TextMalformed = 22,
    TextRejected = 23,
}

// Tickets in order; the places past the count are 0.
#[derive(Clone, Copy)]
pub struct Tickets {
    pub count: usize,
    pub list: [u32; 64],
}

// What a call answers. What a call does not give is 0.
#[derive(Clone, Copy)]
pub struct Answer {
    pub refusal: Refusal,
    pub ticket: u32,
    pub promise: u32,
    // How many points of the profile were read for the planned start (document 02, No. 5).
    pub reads: u32,
    pub ended: Tickets,
    pub started: Tickets,
    pub head: u32,
    pub forecast: u32,
}

#[derive(Clone, Copy)]
pub struct Outcome {
    pub answer: Answer,
    pub scheduler: Scheduler,
}

// The minute before which a waiting job cannot start (document 02, No. 7: "soonest minute"); 0 where it is refused.
#[derive(Clone, Copy)]
pub struct Earliest {
    pub refusal: Refusal,
    pub minute: u32,
}

// The question how long a job of this many nodes may be, submitted now by this tenant, to start by this minute (document 02, No. 9).
#[derive(Clone, Copy)]
pub struct Inquiry {
    pub nodes: u32,
    pub tenant: Tenant,
    pub minute: u32,
}

// The largest estimate that starts in time; 0 if there is none, and 0 if the question is refused.
#[derive(Clone, Copy)]
pub struct Longest {
    pub refusal: Refusal,
    pub estimate: u32,
}

#[derive(Clone, Copy)]
pub struct Opening {
    pub settings: Settings,
    pub minute: u32,
    pub ticket: u32,
}

#[derive(Clone, Copy)]
pub struct Opened {
    pub refusal: Refusal,
    pub scheduler: Scheduler,
}

// What a submission asks for (document 01: "intake"): the estimate is the most that the job runs (document 02, No. 7).
#[derive(Clone, Copy)]
pub struct Submission {
    pub nodes: u32,
    pub estimate: u32,
    pub tenant: Tenant,
    pub least: u32,
}

// A corrected order for the waiting job with this ticket (document 02, No. 13): what is asked for it from now on. Its tenant stays.
#[derive(Clone, Copy)]
pub struct Amendment {
    pub ticket: u32,
    pub nodes: u32,
    pub estimate: u32,
    pub least: u32,
}

// How a job leaves on request: one that runs is over early, one that waits is withdrawn.
#[derive(Clone, Copy, PartialEq, Eq)]
pub enum Departure {
    Complete,
    Cancel,
}

// What a call asks of a scheduler.
#[derive(Clone, Copy)]
pub enum Request {
    Submit(Submission),
    Depart(Departure, u32),
    Tick,
}

// A test of a job, as a value: definitions pick jobs by it.
#[derive(Clone, Copy)]
pub enum Select {
    Live,
    Waiting,
    Departing(Departure, u32),
    EndingAt(Settings, u32),
}

pub fn outside_range(x: u32, low: u32, high: u32) -> bool
    ensures { result ≡ outside low high x }
{
    !(low..=high).contains(&x)
}

// Whether one is 0, or they do not sum to 64. (They may be any numbers, so that no sum of both is computed.)
pub fn quotas_out_of_range(a: u32, b: u32) -> bool
    ensures { result ≡ misdivided a b }
{
    outside_range(a, 1, 63) || b != 64 - a
}

impl Refusal {
    pub fn code(self) -> u32
        ensures { result ≡ code self }
    {
        self as u32
    }

    pub fn is_none(self) -> bool
        ensures { result ≡ accepts self }
    {
        self == Refusal::None
    }
}

impl Tickets {
    // The one ticket, or none.
    #[tactic(auto, unfolding(crate::specs::Table::tickets, lists::specs::Pads::pad))]
    pub fn one_if(given: bool, ticket: u32) -> Tickets
        ensures { result ≡ tickets (one_if given ticket) }
    {
        if given {
            let mut list = [0u32; 64];
            list[0] = ticket;
            return Tickets { count: 1, list };
        }
        Tickets::none()
    }

    #[tactic(auto, unfolding(crate::specs::Table::tickets, lists::specs::Pads::pad))]
    pub fn none() -> Tickets
        ensures { result ≡ no_tickets }
    {
        Tickets {
            count: 0,
            list: [0u32; 64],
        }
    }
}

impl Answer {
    pub fn refused(refusal: Refusal) -> Answer
        ensures { result ≡ refused_answer refusal }
    {
        Answer {
            refusal,
            ticket: 0,
            promise: 0,
            reads: 0,
            ended: Tickets::none(),
            started: Tickets::none(),
            head: 0,
            forecast: 0,
        }
    }
}

impl Tenant {
    // Whose letter it is.
    pub fn of_letter(letter: u32) -> Tenant
        ensures { result ≡ tenant_of letter }
    {
        match letter {
            65 => Tenant::A,
            66 => Tenant::B,
            _ => Tenant::Nobody,
        }
    }

    // Its letter; nobody's is 0.
    pub fn letter(self) -> u32
        ensures { result ≡ letter_of self }
    {
        match self {
            Tenant::Nobody => 0,
            Tenant::A => 65,
            Tenant::B => 66,
        }
    }

    pub fn is_known(self) -> bool
        ensures { result ≡ known self }
    {
        self != Tenant::Nobody
    }
}

impl Job {
    pub fn unused() -> Job
        ensures { result ≡ unused }
    {
        Job {
            ticket: 0,
            nodes: 0,
            estimate: 0,
            state: State::Unused,
            tenant: Tenant::Nobody,
            least: 0,
            rank: 0,
            start: 0,
            promise: 0,
            end: 0,
            submitted: 0,
            forecast: 0,
        }
    }

    // A job that comes in: what is asked for it, under its ticket.
    pub fn fresh(ticket: u32, order: Submission, state: State, start: u32, promise: u32) -> Job
        requires { (order.nodes ≤ max_nodes) × (order.estimate ≤ longest_estimate) × (order.least ≤ order.estimate) }
        ensures { result ≡ fresh ticket order state start promise }
    {
        Job {
            ticket,
            nodes: order.nodes as u16,
            estimate: order.estimate as u16,
            state,
            tenant: order.tenant,
            least: order.least as u16,
            start,
            promise,
            ..Job::unused()
        }
    }

    // The same job with what EASY keeps of it: when it was submitted, and its rank then.
    pub fn entered(self, minute: u32, rank: u32) -> Job
        ensures { result ≡ entered minute rank self }
    {
        Job {
            submitted: minute,
            rank,
            ..self
        }
    }

    // The same job once it has been given a forecast.
    pub fn foretold(self, minute: u32) -> Job
        ensures { result ≡ foretold minute self }
    {
        Job {
            forecast: minute,
            ..self
        }
    }

    // The same job in a state, with a start.
    pub fn at(self, state: State, start: u32) -> Job
        ensures { result ≡ job_at state start self }
    {
        Job {
            state,
            start,
            end: 0,
            ..self
        }
    }

    // The same job once its run has ended.
    pub fn cleaning(self, end: u32) -> Job
        ensures { result ≡ cleaning end self }
    {
        Job {
            state: State::Cleanup,
            end,
            ..self
        }
    }

    pub fn is_live(self) -> bool
        ensures { result ≡ picks Select.Live self }
    {
        self.state != State::Unused
    }

    pub fn is_waiting(self) -> bool
        ensures { result ≡ picks Select.Waiting self }
    {
        self.state == State::Waiting
    }

    pub fn is_running(self) -> bool
        ensures { result ≡ is_running self }
    {
        self.state == State::Running
    }

    pub fn is_cleaning(self) -> bool
        ensures { result ≡ is_cleaning self }
    {
        self.state == State::Cleanup
    }

    // Whether it runs or is in cleanup: its nodes are taken.
    pub fn is_holding(self) -> bool
        ensures { result ≡ is_holding self }
    {
        matches!(self.state, State::Running | State::Cleanup)
    }

    // Whether it can leave so and has this ticket.
    pub fn departs(self, how: Departure, ticket: u32) -> bool
        ensures { result ≡ picks (Select.Departing how ticket) self }
    {
        self.ticket == ticket
            && match how {
                Departure::Complete => self.is_running(),
                Departure::Cancel => self.is_waiting(),
            }
    }

    // Whether it would be over before its least. (A difference, so that no sum can leave its range.)
    pub fn is_early(self, how: Departure, minute: u32) -> bool
        ensures { result ≡ too_early minute how self }
    {
        how == Departure::Complete
            && (minute < self.start || minute - self.start < self.least as u32)
    }

    // Whether it runs and its run ends in this minute. (A difference, so that no sum can leave its range.)
    #[tactic(auto, using(crate::specs::Times::end_is, lists::specs::Tests::eqb_sub))]
    pub fn ends_at(self, settings: Settings, minute: u32) -> bool
        ensures { result ≡ picks (Select.EndingAt settings minute) self }
    {
        self.is_running()
            && minute.checked_sub(self.start) == Some(settings.run_time(self.estimate as u32))
    }

    // Whether its run has ended and its nodes are free again from this minute on.
    #[tactic(auto, using(crate::specs::Times::until_cleaning, lists::specs::Tests::eqb_sub))]
    pub fn released_at(self, settings: Settings, minute: u32) -> bool
        ensures { result ≡ released_at settings minute self }
    {
        self.is_cleaning() && minute.checked_sub(self.end) == Some(settings.cleanup())
    }
}

impl Settings {
    // How many live jobs this tenant may have.
    pub fn quota(self, tenant: Tenant) -> u32
        ensures { result ≡ quota self tenant }
    {
        match tenant {
            Tenant::Nobody => 0,
            Tenant::A => self.quota_a,
            Tenant::B => self.quota_b,
        }
    }

    // For how many minutes nodes stay taken after a run. (An opening refuses more than the longest.)
    #[tactic(auto, unfolding(crate::specs::Settings::cleanup))]
    pub fn cleanup(self) -> u32
        ensures { result ≡ cleanup self }
    {
        self.cleanup.min(Scheduler::LONGEST_CLEANUP)
    }

    // The longest estimate that a submission may have. (An opening refuses more than the longest of all.)
    #[tactic(auto, unfolding(crate::specs::Settings::longest))]
    pub fn longest(self) -> u32
        ensures { result ≡ longest self }
    {
        self.longest.min(Scheduler::LONGEST_ESTIMATE)
    }

    // For how many minutes a job of this estimate runs.
    #[tactic(auto, unfolding(crate::specs::Settings::run_time))]
    pub fn run_time(self, estimate: u32) -> u32
        ensures { result ≡ run_time self estimate }
    {
        walltime::wall_time(estimate)
    }

    // For how many minutes it holds its nodes.
    #[tactic(auto, using(crate::specs::Times::hold_is))]
    pub fn hold_time(self, estimate: u32) -> u32
        ensures { result ≡ hold_time self estimate }
    {
        self.run_time(estimate) + self.cleanup()
    }

    // The longest of these: the unit of the bound.
    #[tactic(auto, unfolding(crate::specs::Settings::unit))]
    pub fn unit(self) -> u32
        ensures { result ≡ unit self }
    {
        self.hold_time(self.longest())
    }

    // The largest estimate with which a job holds its nodes for no longer than this many minutes; 0 if there is none.
    pub fn longest_within(self, minutes: u32) -> u32
        ensures { LongestWithin self minutes result }
    {
        let cleanup = self.cleanup();
        if minutes < cleanup {
            return 0;
        }
        walltime::longest_within(minutes - cleanup).min(self.longest())
    }

    // What a refused opening hands back.
    pub fn of_refused(kind: Kind) -> Settings
        ensures { result ≡ refused_settings kind }
    {
        Settings {
            kind,
            nodes: 1,
            cleanup: 0,
            quota_a: 63,
            quota_b: 1,
            longest: Scheduler::LONGEST_ESTIMATE,
        }
    }
}

impl Opening {
    // Why it is refused, in this order: 16, 1, 3, 12, 13.
    #[tactic(auto, unfolding(crate::specs::Opening::opening_refusal, crate::specs::Answers::verdict))]
    fn refusal(self) -> Refusal
        ensures { result ≡ opening_refusal self }
    {
        if outside_range(self.settings.longest, 1, Scheduler::LONGEST_ESTIMATE) {
            return Refusal::LongestOutOfRange;
        }
        if outside_range(self.settings.nodes, 1, Scheduler::NODES) {
            return Refusal::NodesOutOfRange;
        }
        if Scheduler::HORIZON < self.minute
            || outside_range(self.ticket, 1, Scheduler::LAST_TICKET)
        {
            return Refusal::OpeningOutOfRange;
        }
        if Scheduler::LONGEST_CLEANUP < self.settings.cleanup {
            return Refusal::CleanupOutOfRange;
        }
        if quotas_out_of_range(self.settings.quota_a, self.settings.quota_b) {
            return Refusal::QuotasOutOfRange;
        }
        Refusal::None
    }
}

impl Scheduler {
    pub const NODES: u32 = 1024;

    // Document 01: "last minute".
    pub const HORIZON: u32 = 1_000_000;

    pub const LIVE: usize = 64;

    // No estimate is longer, whatever the settings.
    pub const LONGEST_ESTIMATE: u32 = 10_080;

    pub const LONGEST_WAIT: u32 = 10_080;

    pub const LONGEST_CLEANUP: u32 = 30;

    // No job holds its nodes for longer, whatever the settings.
    pub const LONGEST_HOLD: u32 = 10_110;

    pub const LAST_TICKET: u32 = 999_999;

    pub fn limits() -> Limits
        ensures { result ≡ limits }
    {
        Limits {
            nodes: Scheduler::NODES,
            horizon: Scheduler::HORIZON,
            live: Scheduler::LIVE,
            longest_estimate: Scheduler::LONGEST_ESTIMATE,
            longest_wait: Scheduler::LONGEST_WAIT,
            longest_cleanup: Scheduler::LONGEST_CLEANUP,
            longest_hold: Scheduler::LONGEST_HOLD,
            last_ticket: Scheduler::LAST_TICKET,
        }
    }

    #[tactic(auto, unfolding(crate::specs::Model::store, lists::specs::Pads::pad))]
    pub fn empty(settings: Settings, clock: u32, next: u32) -> Scheduler
        ensures { result ≡ store (empty settings clock next) }
    {
        Scheduler {
            settings,
            clock,
            next,
            jobs: [Job::unused(); 64],
        }
    }

    #[tactic(auto, unfolding(crate::specs::Opening::opening, crate::specs::Opening::opened))]
    pub fn open(o: Opening) -> Opened
        ensures { result ≡ opened o }
    {
        let refusal = o.refusal();
        let scheduler = if refusal.is_none() {
            Scheduler::empty(o.settings, o.minute, o.ticket)
        } else {
            Scheduler::empty(Settings::of_refused(o.settings.kind), 0, 1)
        };
        Opened { refusal, scheduler }
    }

    // The outcome of a refused call: its reason, and the scheduler as it was.
    pub fn refused(self, refusal: Refusal) -> Outcome
        ensures { result ≡ refused_outcome self refusal }
    {
        Outcome {
            answer: Answer::refused(refusal),
            scheduler: self,
        }
    }
}
