// EASY backfilling (document 01: "Loose Desk") over columns, lent lists that are kept from call to call: what each call does to them, and what
// it answers. Besides the columns that both kinds have there are, of each live job, the nodes that it asks for while it waits, when it was
// submitted, its rank and its forecast; and of those that hold nodes, in any order, how many, until when, and their tickets.
#![tactic(auto)]

ghost use Rattle.std.specs.Prelude.{◌≡◌, List, [], ◌∷◌, ◌++◌, cond, ℕ, ◌+◌, ◌-◌, ◌≤◌, ◌<◌, eqb, length, take};
ghost use Rattle.std.proofs.Math.Option.{Option};
ghost use Rattle.lists.specs.Loops.{position};
ghost use Rattle.scheduler.specs.declared.Job.{Job};
ghost use Rattle.scheduler.specs.declared.Settings.{Settings};
ghost use Rattle.scheduler.specs.declared.Select.{Select};
ghost use Rattle.scheduler.specs.declared.Departure.TheVariants.{Complete};
ghost use Rattle.scheduler.specs.declared.Select.TheVariants as select;
ghost use Rattle.scheduler.specs.Limits.{slots, horizon};
ghost use Rattle.scheduler.specs.Table.{ticket_of, remaining};
ghost use Rattle.scheduler.specs.Model.{Model, without};
ghost use Rattle.scheduler.specs.Answers.{Forecast, head_ticket, head_minute};
ghost use Rattle.jobs.specs.Order.{Asc};
ghost use Rattle.history.specs.Calls as calls;
ghost use Rattle.easy_rules.specs.Easy.{head, noted, call};
ghost use Rattle.job_columns.specs.Removal.{Places};
ghost use Rattle.job_columns.specs.Columns.{Column, Whole};
ghost use Rattle.job_columns.specs.JobColumns.{forecast_of};
ghost use Rattle.job_columns.specs.Searches.{place_of, has_ticket};
ghost use Rattle.easy_engine.specs.Survey.{ticket_in, head_before};
ghost use Rattle.column_parts.specs.ColumnParts.{Gone};
ghost use Rattle.job_columns.specs.Held.{ColumnsOf, Retimed};
ghost use Rattle.easy_columns.specs.Sifting.{taken_out};
ghost use Rattle.easy_columns.specs.Starting.{Begun};
ghost use Rattle.easy_columns.specs.HeadNoted.{Heard};
ghost use Rattle.easy_columns.specs.Held.{KeptIn, AdmitsIn, GivesIn, QueueOf, Reasked, HoldersIn, TakenOut, SiftIn, SiftedIn, EndingIn, LeaverIn, StartingIn, UnfinishedIn, FinishesIn, BeginningIn, BegunIn};
ghost use Rattle.easy_columns.specs.EasySubmit.{entering, Orderly};

use column_parts::Told;
use job_columns::Columns;
use scheduler::{Departure, Job, Refusal, Scheduler, Settings, State, Submission};

// More nodes than any machine has: what a job asks for that does not wait.
const NOBODY: u32 = Scheduler::NODES + 1;

// What this kind keeps of each job besides: the nodes that it asks for while it waits, when it was submitted, its rank and its forecast.
#[derive(Drop)]
pub struct Queue {
    pub asked: [u32; 64],
    pub submitted: [u32; 64],
    pub ranks: [u32; 64],
    pub forecasts: [u32; 64],
}

// ## Who holds nodes

// Who holds nodes, in any order: how many, until when, and the tickets; how many jobs these are, and the nodes that are free.
#[derive(Drop)]
pub struct Occupancy {
    pub held: [u32; 64],
    pub ends: [u32; 64],
    pub holders: [u32; 64],
    pub holding: usize,
    pub spare: u32,
}

// The last number of a list takes this place.
fn take_out(list: &mut [u32; 64], at: usize, last: usize)
    requires { (at < slots) × (last < slots) }
    ensures { list.new ≡ taken_out at last list.old }
{
    list[at] = list[last];
    list[last] = 0;
}

impl Occupancy {
    // The last holder takes this place.
    fn take_out(&mut self, at: usize, last: usize)
        requires { (at < slots) × (last < slots) }
        ensures { TakenOut at last self.old self.new }
    {
        take_out(&mut self.held, at, last);
        take_out(&mut self.ends, at, last);
        take_out(&mut self.holders, at, last);
    }

    // Those whose nodes are free in this minute hold none any more.
    fn release(&mut self, minute: u32)
        requires { SiftIn self.old }
        ensures { (s : SiftIn self.old) → SiftedIn s.jobs s.frees minute self.old.spare self.new self.new.holding }
    {
        let mut i: usize = 0;
        while i < self.holding {
            if self.ends[i] == minute {
                self.spare += self.held[i];
                let last = self.holding - 1;
                self.take_out(i, last);
                self.holding = last;
            } else {
                i += 1;
            }
        }
    }

    // The place of a ticket among the holders, or their count.
    fn holder(&self, ticket: u32) -> usize
        requires { self.now.holding ≤ slots }
        ensures { (rs : List Job) → Column ticket_of rs self.now.holders → length rs ≡ self.now.holding
            → result ≡ place_of (position (has_ticket ticket) rs) self.now.holding }
    {
        for i in 0..self.holding {
            if self.holders[i] == ticket {
                return i;
            }
        }
        self.holding
    }

    // The run of this ticket is over early: its nodes are free at once, or after the cleanup.
    fn complete(&mut self, ticket: u32, clock: u32, cleanup: u32)
        requires { EndingIn self.old ticket clock cleanup }
        ensures { (e : EndingIn self.old ticket clock cleanup)
            → HoldersIn (without e.model e.model.clock (select.Departing Complete ticket)) self.new }
    {
        let i = self.holder(ticket);
        if 0 < cleanup {
            self.ends[i] = clock + cleanup;
            return;
        }
        self.spare += self.held[i];
        let last = self.holding - 1;
        self.take_out(i, last);
        self.holding = last;
    }

    // What a departure gives back: the nodes of a run that is over early, and none where a waiting job is withdrawn.
    fn give_back(&mut self, clock: u32, cleanup: u32, how: Departure, ticket: u32)
        requires { LeaverIn self.old clock cleanup how ticket }
        ensures { (l : LeaverIn self.old clock cleanup how ticket)
            → HoldersIn (without l.model l.model.clock (select.Departing how ticket)) self.new }
    {
        match how {
            Departure::Complete => self.complete(ticket, clock, cleanup),
            Departure::Cancel => {}
        }
    }
}

// ## Settling

// Those who start are written in their slots, listed, and among the holders.
fn write_starts(
    columns: &mut Columns,
    order: &[u32; 64],
    started: &mut [u32; 64],
    ends: &[u32; 64],
    holders: &mut [u32; 64],
    count: usize,
    holding: usize,
    clock: u32,
    cleanup: u32,
)
    requires { StartingIn columns.old order.now started.old ends.now holders.old count holding clock cleanup }
    ensures begun { (s : StartingIn columns.old order.now started.old ends.now holders.old count holding clock cleanup)
        → Begun s.model s.places s.jobs columns.old.tickets s.nodes columns.new.states columns.new.dues columns.new.starts
        s.tenants s.estimates s.leasts s.live started.new holders.new count }
    ensures retimed { Retimed columns.old columns.new }
{
    for k in 0..count {
        let at = order[k] as usize;
        let t = columns.tickets[at];
        started[k] = t;
        holders[holding + k] = t;
        columns.states[at] = 2;
        columns.starts[at] = clock;
        columns.dues[at] = ends[holding + k] - cleanup;
    }
}

// A new head keeps its forecast; where there is none, its ticket is 0.
fn note_head(columns: &Columns, forecasts: &mut [u32; 64], head: u32, forecast: u32)
    requires { columns.now.live ≤ slots }
    ensures { (m : Model) (o : Option Forecast) → Asc 1 m.jobs → length m.jobs ≡ columns.now.live → Column ticket_of m.jobs columns.now.tickets
        → Column forecast_of m.jobs forecasts.old → head ≡ head_ticket o → forecast ≡ head_minute o → Heard m.jobs o
        → Column forecast_of (noted o m).jobs forecasts.new }
{
    if head == 0 {
        return;
    }
    let at = columns.find(head);
    if at < columns.live {
        forecasts[at] = forecast;
    }
}

// Settles after a call that found this head, and answers.
fn settle(
    columns: &mut Columns,
    queue: &mut Queue,
    occupancy: &mut Occupancy,
    started: &mut [u32; 64],
    clock: u32,
    settings: Settings,
    next: u32,
    ticket: u32,
    before: u32,
    ended: usize,
) -> Told
    requires { UnfinishedIn columns.old queue.old occupancy.old started.old clock settings }
    ensures finishes { (u : UnfinishedIn columns.old queue.old occupancy.old started.old clock settings) (b : Model)
        → before ≡ ticket_in (head b)
        → FinishesIn u b ticket ended clock next result started.new columns.new queue.new occupancy.new }
    ensures retimed { Retimed columns.old columns.new }
    ensures reasked { Reasked queue.old queue.new }
{
    let mut order = [0u32; 64];
    let holding = occupancy.holding;
    let s = easy_engine::settle_slots(
        before,
        &mut occupancy.held,
        &mut occupancy.ends,
        holding,
        &mut queue.asked,
        &columns.estimates,
        &columns.tickets,
        columns.live,
        &mut order,
        clock,
        occupancy.spare,
        settings,
    );
    let count = s.started;
    write_starts(
        columns,
        &order,
        started,
        &occupancy.ends,
        &mut occupancy.holders,
        count,
        holding,
        clock,
        settings.cleanup(),
    );
    occupancy.holding = holding + count;
    occupancy.spare = s.spare;
    note_head(columns, &mut queue.forecasts, s.head, s.forecast);
    Told {
        ticket,
        head: s.head,
        forecast: s.forecast,
        ended,
        started: count,
        clock,
        next,
        ..Told::NOTHING
    }
}

// A call that has done its own part settles, and answers; nothing is to be done where nobody fits and the head is that of before.
fn finish(
    columns: &mut Columns,
    queue: &mut Queue,
    occupancy: &mut Occupancy,
    started: &mut [u32; 64],
    clock: u32,
    settings: Settings,
    next: u32,
    ticket: u32,
    withdrawn: u32,
    ended: usize,
) -> Told
    requires { UnfinishedIn columns.old queue.old occupancy.old started.old clock settings }
    ensures finishes { (u : UnfinishedIn columns.old queue.old occupancy.old started.old clock settings) (b : Model)
        → head_before ticket withdrawn (ticket_in (head u.model)) ≡ ticket_in (head b)
        → FinishesIn u b ticket ended clock next result started.new columns.new queue.new occupancy.new }
    ensures retimed { Retimed columns.old columns.new }
    ensures reasked { Reasked queue.old queue.new }
{
    let first = easy_engine::leading(&queue.asked, &columns.tickets, columns.live);
    let before = easy_engine::head_before(first, ticket, withdrawn);
    if easy_engine::rests_at(before, &queue.asked, first, columns.live, occupancy.spare) {
        return Told {
            ticket,
            ended,
            clock,
            next,
            ..Told::NOTHING
        };
    }
    settle(
        columns, queue, occupancy, started, clock, settings, next, ticket, before, ended,
    )
}

// ## A submission

// A job stands last, waiting.
fn enter(
    columns: &mut Columns,
    queue: &mut Queue,
    settings: Settings,
    clock: u32,
    next: u32,
    rank: u32,
    s: Submission,
)
    requires { (columns.old.live < slots) × Orderly s }
    ensures entered { (js : List Job) → ColumnsOf settings js columns.old → QueueOf js queue.old
        → ColumnsOf settings (js ++ (entering clock rank next s ∷ [])) columns.new
        × QueueOf (js ++ (entering clock rank next s ∷ [])) queue.new }
    ensures one_more { columns.new.live ≡ columns.old.live + 1 }
{
    let job = Job::fresh(next, s, State::Waiting, 0, 0);
    let new = job.entered(clock, rank);
    let at = columns.live;
    columns.append(new, settings);
    queue.asked[at] = s.nodes;
    queue.submitted[at] = clock;
    queue.ranks[at] = rank;
    queue.forecasts[at] = 0;
}

// A submission that the tests of both kinds let through: it is refused if its end could pass the last minute, and comes in if not.
fn admit(
    columns: &mut Columns,
    queue: &mut Queue,
    occupancy: &mut Occupancy,
    started: &mut [u32; 64],
    clock: u32,
    next: u32,
    settings: Settings,
    s: Submission,
) -> Told
    requires { AdmitsIn columns.old queue.old occupancy.old started.old clock next settings s }
    ensures { (a : AdmitsIn columns.old queue.old occupancy.old started.old clock next settings s) (ended : List ℕ) → Whole ended
        → GivesIn (call a.kept.model (calls.submit s)) result ended started.new columns.new queue.new occupancy.new }
{
    let waits = columns.waiting() as u32;
    let latest = clock + (waits + 1) * settings.unit() + settings.hold_time(s.estimate);
    if Scheduler::HORIZON < latest {
        return Told::refused(Refusal::PastHorizon, clock, next);
    }
    enter(columns, queue, settings, clock, next, waits + 1, s);
    finish(
        columns,
        queue,
        occupancy,
        started,
        clock,
        settings,
        next + 1,
        next,
        0,
        0,
    )
}

// A submission: it is refused, or the job comes in and the columns are settled.
pub fn submit(
    columns: &mut Columns,
    queue: &mut Queue,
    occupancy: &mut Occupancy,
    started: &mut [u32; 64],
    clock: u32,
    next: u32,
    settings: Settings,
    s: Submission,
) -> Told
    requires { KeptIn columns.old queue.old occupancy.old clock next settings × Whole started.old }
    ensures { (k : KeptIn columns.old queue.old occupancy.old clock next settings) (ended : List ℕ) → Whole ended
        → GivesIn (call k.model (calls.submit s)) result ended started.new columns.new queue.new occupancy.new }
{
    let tenant = s.tenant;
    let mine = column_parts::live_of(columns, tenant, settings.quota(tenant));
    let why = job_table::submit_refusal(s, settings, mine, next);
    if why.is_none() {
        return admit(columns, queue, occupancy, started, clock, next, settings, s);
    }
    Told::refused(why, clock, next)
}

// ## Jobs leave

// Those who have left the columns of both kinds leave the others too.
fn close_up(queue: &mut Queue, live: usize, gone: &[u32; 64], left: usize)
    requires { (live ≤ slots) × (left ≤ live) × Whole gone.now × Places live (take (live - left) gone.now) }
    ensures { (S : Settings) (s : Select) (js : List Job) (minute : ℕ) → Gone S s js gone.now live left → length js ≡ live
        → QueueOf js queue.old → QueueOf (remaining S minute s js) queue.new }
{
    if left < live {
        let count = live - left;
        job_columns::shift_all(&mut queue.asked, live, gone, count);
        job_columns::shift_all(&mut queue.submitted, live, gone, count);
        job_columns::shift_all(&mut queue.ranks, live, gone, count);
        job_columns::shift_all(&mut queue.forecasts, live, gone, count);
    }
}

// An early completion or a withdrawal: it is refused, or the job leaves and the columns are settled.
pub fn depart(
    columns: &mut Columns,
    queue: &mut Queue,
    occupancy: &mut Occupancy,
    ended: &mut [u32; 64],
    gone: &mut [u32; 64],
    started: &mut [u32; 64],
    clock: u32,
    next: u32,
    settings: Settings,
    how: Departure,
    ticket: u32,
) -> Told
    requires { KeptIn columns.old queue.old occupancy.old clock next settings × Whole ended.old × Whole gone.old × Whole started.old }
    ensures { (k : KeptIn columns.old queue.old occupancy.old clock next settings)
        → GivesIn (call k.model (calls.depart how ticket)) result ended.new started.new columns.new queue.new occupancy.new
        × Whole gone.new }
{
    let live = columns.live;
    let left = column_parts::leave(columns, ended, gone, how, ticket, clock, settings);
    let why = left.refusal;
    if why.is_none() {
        close_up(queue, live, gone, columns.live);
        occupancy.give_back(clock, settings.cleanup(), how, ticket);
        return finish(
            columns,
            queue,
            occupancy,
            started,
            clock,
            settings,
            next,
            0,
            left.withdrawn,
            left.ended,
        );
    }
    Told::refused(why, clock, next)
}

// ## A tick

// A minute passes: it is refused, or runs end, nodes are free again, and the columns are settled.
pub fn tick(
    columns: &mut Columns,
    queue: &mut Queue,
    occupancy: &mut Occupancy,
    ended: &mut [u32; 64],
    gone: &mut [u32; 64],
    started: &mut [u32; 64],
    clock: u32,
    next: u32,
    settings: Settings,
) -> Told
    requires { KeptIn columns.old queue.old occupancy.old clock next settings × Whole ended.old × Whole gone.old × Whole started.old }
    ensures { (k : KeptIn columns.old queue.old occupancy.old clock next settings)
        → GivesIn (call k.model calls.tick) result ended.new started.new columns.new queue.new occupancy.new
        × Whole gone.new }
{
    if Scheduler::HORIZON <= clock {
        return Told::refused(Refusal::PastHorizon, clock, next);
    }
    let minute = clock + 1;
    let live = columns.live;
    let over = column_parts::expire(columns, ended, gone, minute, settings.cleanup());
    close_up(queue, live, gone, columns.live);
    occupancy.release(minute);
    finish(
        columns, queue, occupancy, started, minute, settings, next, 0, 0, over.ended,
    )
}

// ## The columns of a scheduler

// Until when a job holds its nodes: a run until it is over and they are cleared, one in cleanup until it is due.
fn free_again(state: u32, due: u32, cleanup: u32) -> u32
    requires { state ≡ 2 → due + cleanup ≤ horizon }
    ensures { result ≡ cond (eqb state 2) (due + cleanup) due }
{
    if state == 2 { due + cleanup } else { due }
}

// From the columns of both kinds, what the jobs ask for while they wait, and who holds nodes.
pub fn begin(
    columns: &Columns,
    asked: &mut [u32; 64],
    occupancy: &mut Occupancy,
    settings: Settings,
)
    requires { BeginningIn columns.now asked.old occupancy.old settings }
    ensures { (b : BeginningIn columns.now asked.old occupancy.old settings) → BegunIn b.model asked.new occupancy.new }
{
    let cleanup = settings.cleanup();
    let mut spare = settings.nodes;
    let mut n: usize = 0;
    for i in 0..columns.live {
        let own = columns.nodes[i];
        let state = columns.states[i];
        if state == 1 {
            asked[i] = own;
        } else {
            asked[i] = NOBODY;
            occupancy.held[n] = own;
            occupancy.ends[n] = free_again(state, columns.dues[i], cleanup);
            occupancy.holders[n] = columns.tickets[i];
            spare -= own;
            n += 1;
        }
    }
    occupancy.holding = n;
    occupancy.spare = spare;
}
