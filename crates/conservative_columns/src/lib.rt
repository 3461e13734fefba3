// Conservative backfilling over columns: the live jobs stand in lent lists of numbers, and the profile and its index are kept beside them. What
// a call answers, and the columns after it, are those of the call by its definition.
#![tactic(auto)]

ghost use Rattle.std.specs.Prelude.{◌≡◌, cond, List, [], ◌∷◌, ℕ, ◌-◌, ◌≤◌, ◌<◌, eqb, length, get_or, set, take};
ghost use Rattle.scheduler.specs.declared.Job.{Job};
ghost use Rattle.scheduler.specs.declared.Settings.{Settings};
ghost use Rattle.scheduler.specs.Limits.{slots, horizon, longest_hold, longest_cleanup};
ghost use Rattle.scheduler.specs.Jobs.{unused};
ghost use Rattle.job_columns.specs.Removal.{Places};
ghost use Rattle.job_columns.specs.Columns.{Column, Blank, Whole, estimate_of};
ghost use Rattle.job_columns.specs.JobColumns.{hold_of};
ghost use Rattle.job_columns.specs.Held.{Retimed};
ghost use Rattle.column_parts.specs.ColumnParts.{Listing};
ghost use Rattle.history.specs.Calls as calls;
ghost use Rattle.conservative_rules.specs.Conservative.{state_at, begun, call};
ghost use Rattle.conservative_kept.specs.Depart.{freed_by};
ghost use Rattle.conservative_columns.specs.ConservativeColumns.{Shifted};
ghost use Rattle.conservative_columns.specs.Held.{KeptIn, AdmitsIn, AnsweredIn, PlacesIn, PassingIn, MovesUpIn, MovedIn, StartingIn};
ghost use Rattle.conservative_columns.specs.Passes.{Passed};
ghost use Rattle.conservative_columns.specs.Started.{Compared};
ghost use Rattle.conservative_columns.specs.Due.{AllStarted};

use column_parts::Told;
use job_columns::Columns;
use scheduler::{Departure, Job, Refusal, Scheduler, Settings, State, Submission};

// What this kind keeps of each job besides: for how long it holds its nodes, and by when it was promised to start.
#[derive(Drop)]
pub struct Promised {
    pub holds: [u32; 64],
    pub promises: [u32; 64],
}

// The points of the profile, how many they are, and their index: the minutes from which so many nodes are free, and the fewest and the most of each sixteen points.
#[derive(Drop)]
pub struct Profile {
    pub minutes: [u32; 131],
    pub free: [u32; 131],
    pub low: [u32; 9],
    pub high: [u32; 9],
    pub count: usize,
}

// For how long each job holds its nodes.
pub fn begin(estimates: &[u32; 64], live: usize, holds: &mut [u32; 64], settings: Settings)
    requires { (live ≤ slots) × Blank holds.old }
    ensures { (js : List Job) → Column estimate_of js estimates.now → length js ≡ live → Column (hold_of settings) js holds.new }
{
    for i in 0..live {
        holds[i] = settings.hold_time(estimates[i]);
    }
}

// A job that is planned for a minute runs if that is now.
fn state_at(start: u32, clock: u32) -> State
    ensures { result ≡ state_at clock start }
{
    if start == clock {
        State::Running
    } else {
        State::Waiting
    }
}

// A ticket is listed if its job starts now.
fn list_if_now(started: &mut [u32; 64], start: u32, clock: u32, ticket: u32) -> usize
    requires { Whole started.old }
    ensures { Listing (cond (eqb start clock) (ticket ∷ []) []) started.new result }
{
    if start == clock {
        started[0] = ticket;
        return 1;
    }
    0
}

// A submission is taken in at the start that was found for it: that start is its promise.
fn admit(
    columns: &mut Columns,
    promised: &mut Promised,
    profile: &mut Profile,
    started: &mut [u32; 64],
    settings: Settings,
    clock: u32,
    next: u32,
    s: Submission,
    start: u32,
    hold: u32,
) -> Told
    requires { AdmitsIn settings clock next columns.old promised.old profile.old s start hold × Whole started.old }
    ensures { (q : AdmitsIn settings clock next columns.old promised.old profile.old s start hold) (ended : List ℕ) → Whole ended
        → AnsweredIn (call q.kept.model (calls.submit s)) result ended started.new columns.new promised.new profile.new }
{
    let x = spans::Span {
        from: start,
        until: start + hold,
        nodes: s.nodes,
    };
    profile.count = conservative_index::take_in(
        &mut profile.minutes,
        &mut profile.free,
        profile.count,
        &mut profile.low,
        &mut profile.high,
        x,
    );
    let state = state_at(start, clock);
    let job = Job::fresh(next, s, state, start, start);
    let at = columns.live;
    columns.append(job, settings);
    promised.holds[at] = hold;
    promised.promises[at] = start;
    Told {
        ticket: next,
        promise: start,
        started: list_if_now(started, start, clock, next),
        clock,
        next: next + 1,
        ..Told::NOTHING
    }
}

// A submission: its start is sought through the index, and its span is taken in.
pub fn submit(
    columns: &mut Columns,
    promised: &mut Promised,
    profile: &mut Profile,
    started: &mut [u32; 64],
    settings: Settings,
    clock: u32,
    next: u32,
    s: Submission,
) -> Told
    requires { KeptIn settings clock next columns.old promised.old profile.old × Whole started.old }
    ensures { (k : KeptIn settings clock next columns.old promised.old profile.old) (ended : List ℕ) → Whole ended
        → AnsweredIn (call k.model (calls.submit s)) result ended started.new columns.new promised.new profile.new }
{
    let tenant = s.tenant;
    let own = column_parts::live_of(columns, tenant, settings.quota(tenant));
    let why = job_table::submit_refusal(s, settings, own, next);
    if !why.is_none() {
        return Told::refused(why, clock, next);
    }
    let hold = settings.hold_time(s.estimate);
    let found = conservative_index::search(
        &profile.minutes,
        &profile.free,
        profile.count,
        &profile.low,
        &profile.high,
        s.nodes,
        hold,
    );
    let start = found.minute;
    if Scheduler::HORIZON < start + hold {
        return Told::refused(Refusal::PastHorizon, clock, next);
    }
    admit(
        columns, promised, profile, started, settings, clock, next, s, start, hold,
    )
}

// The jobs that left the columns of both kinds leave those of this kind too: so many were live, and so many are left.
fn shift_own(promised: &mut Promised, live: usize, gone: &[u32; 64], left: usize)
    requires { (live ≤ slots) × (left ≤ live) × Whole gone.now × Places live (take (live - left) gone.now) }
    ensures { Shifted gone.now live left promised.old.holds promised.new.holds
        × Shifted gone.now live left promised.old.promises promised.new.promises }
{
    let count = live - left;
    job_columns::shift_all(&mut promised.holds, live, gone, count);
    job_columns::shift_all(&mut promised.promises, live, gone, count);
}

// A waiting job comes from one start to another: it runs if that is now.
fn place(columns: &mut Columns, at: usize, from: u32, to: u32, run: u32, clock: u32)
    requires { (at < slots) × (to ≤ horizon) × (run ≤ longest_hold) }
    ensures placed { PlacesIn at from to run clock columns.old columns.new }
    ensures retimed { Retimed columns.old columns.new }
{
    if to == from {
        return;
    }
    if to == clock {
        columns.begin(at, clock, run);
        return;
    }
    columns.dues[at] = to;
    columns.starts[at] = to;
}

// Each waiting job, in ticket order, is taken out of the plan and put in again, the others staying at their places, and again from the first
// on until a whole pass moves nobody. That is so once as many turns in a row as there are jobs have moved nobody.
fn passes(
    columns: &mut Columns,
    holds: &[u32; 64],
    minutes: &mut [u32; 131],
    free: &mut [u32; 131],
    count: usize,
    clock: u32,
    cleanup: u32,
) -> usize
    requires { PassingIn columns.old holds.now minutes.old free.old count clock cleanup }
    ensures passed { (q : PassingIn columns.old holds.now minutes.old free.old count clock cleanup)
        → Passed q columns.new.states columns.new.dues columns.new.starts result minutes.new free.new }
    ensures retimed { Retimed columns.old columns.new }
{
    let mut n = count;
    let mut at: usize = 0;
    let mut turns: usize = 0;
    let live = columns.live;
    while turns < live {
        turns += 1;
        if columns.states[at] == 1 {
            let start = columns.starts[at];
            let hold = holds[at];
            let t = conservative_plan::take_turn(minutes, free, n, columns.nodes[at], start, hold);
            n = t.count;
            place(columns, at, start, t.start, hold - cleanup, clock);
            turns = conservative_plan::calm(turns, start, t.start);
        }
        at = conservative_plan::slot_after(at, live);
    }
    n
}

// The tickets of the jobs that waited before and run now are listed.
fn note_started(columns: &Columns, was: &[u32; 64], started: &mut [u32; 64]) -> usize
    requires { (columns.now.live ≤ slots) × Whole started.old }
    ensures { (js ks : List Job) → Compared js ks columns.now.tickets was.now columns.now.states columns.now.live
        → Listing (begun js ks) started.new result }
{
    let mut n: usize = 0;
    for i in 0..columns.live {
        if columns.states[i] == 2 && was[i] == 1 {
            started[n] = columns.tickets[i];
            n += 1;
        }
    }
    n
}

// Whoever waits moves up: the span that a job gives back is taken out of the points, the passes go over them, and the index is built anew. How
// many tickets stand then in the list of those started.
fn move_up(
    columns: &mut Columns,
    holds: &[u32; 64],
    profile: &mut Profile,
    started: &mut [u32; 64],
    x: spans::Span,
    clock: u32,
    cleanup: u32,
) -> usize
    requires { MovesUpIn columns.old holds.now profile.old x clock cleanup × Whole started.old }
    ensures moved { (q : MovesUpIn columns.old holds.now profile.old x clock cleanup) → MovedIn q result columns.new started.new profile.new }
    ensures retimed { Retimed columns.old columns.new }
{
    let was = columns.states;
    let out = conservative_table::lift(
        &mut profile.minutes,
        &mut profile.free,
        0,
        profile.count,
        x,
    );
    let n = passes(
        columns,
        holds,
        &mut profile.minutes,
        &mut profile.free,
        out.count,
        clock,
        cleanup,
    );
    conservative_index::build(&profile.free, n, &mut profile.low, &mut profile.high, 0);
    profile.count = n;
    note_started(columns, &was, started)
}

// What the job in this place gives back where it departs: nothing where there is none.
fn freed(
    columns: &Columns,
    holds: &[u32; 64],
    at: usize,
    how: Departure,
    clock: u32,
    cleanup: u32,
) -> spans::Span
    requires { (columns.now.live ≤ slots) × (clock ≤ horizon) × (cleanup ≤ longest_cleanup) × (at < columns.now.live → (get_or columns.now.starts at 0 ≤ horizon) × (get_or holds.now at 0 ≤ longest_hold)) }
    ensures { at < columns.now.live → result ≡ freed_by how (get_or columns.now.nodes at 0) (get_or columns.now.starts at 0) (get_or holds.now at 0) clock cleanup }
{
    if columns.live <= at {
        return spans::Span {
            from: 0,
            until: 0,
            nodes: 0,
        };
    }
    conservative_kept::given_back(
        how,
        columns.nodes[at],
        columns.starts[at],
        holds[at],
        clock,
        cleanup,
    )
}

// A job leaves: what it gives back is taken out of the points, and whoever waits moves up.
pub fn depart(
    columns: &mut Columns,
    promised: &mut Promised,
    profile: &mut Profile,
    ended: &mut [u32; 64],
    gone: &mut [u32; 64],
    started: &mut [u32; 64],
    settings: Settings,
    clock: u32,
    next: u32,
    how: Departure,
    ticket: u32,
) -> Told
    requires { KeptIn settings clock next columns.old promised.old profile.old × Whole ended.old × Whole gone.old × Whole started.old }
    ensures { (k : KeptIn settings clock next columns.old promised.old profile.old)
        → AnsweredIn (call k.model (calls.depart how ticket)) result ended.new started.new columns.new promised.new profile.new
        × Whole gone.new }
{
    let cleanup = settings.cleanup();
    let at = columns.find(ticket);
    let x = freed(columns, &promised.holds, at, how, clock, cleanup);
    let live = columns.live;
    let left = column_parts::leave(columns, ended, gone, how, ticket, clock, settings);
    let why = left.refusal;
    if !why.is_none() {
        return Told::refused(why, clock, next);
    }
    shift_own(promised, live, gone, columns.live);
    let begun = move_up(
        columns,
        &promised.holds,
        profile,
        started,
        x,
        clock,
        cleanup,
    );
    Told {
        ended: left.ended,
        started: begun,
        clock,
        next,
        ..Told::NOTHING
    }
}

// Those whose planned start is this minute start, and their tickets are listed. None is looked for where none is to start.
fn start_due(
    columns: &mut Columns,
    holds: &[u32; 64],
    starting: usize,
    minute: u32,
    cleanup: u32,
    started: &mut [u32; 64],
) -> usize
    requires { StartingIn columns.old holds.now starting minute cleanup × Whole started.old }
    ensures started { (q : StartingIn columns.old holds.now starting minute cleanup)
        → AllStarted q result columns.new.states columns.new.dues columns.new.starts started.new }
    ensures retimed { Retimed columns.old columns.new }
{
    if starting == 0 {
        return 0;
    }
    let mut n: usize = 0;
    let live = columns.live;
    let mut at = columns.first_due(0, minute);
    while at < live {
        if columns.states[at] == 1 {
            started[n] = columns.tickets[at];
            n += 1;
            columns.begin(at, minute, holds[at] - cleanup);
        }
        at = columns.first_due(at + 1, minute);
    }
    n
}

// A minute passes: runs end, nodes are free again, and those whose planned start it is start. The clock of the profile moves on too.
pub fn tick(
    columns: &mut Columns,
    promised: &mut Promised,
    profile: &mut Profile,
    ended: &mut [u32; 64],
    gone: &mut [u32; 64],
    started: &mut [u32; 64],
    settings: Settings,
    clock: u32,
    next: u32,
) -> Told
    requires { KeptIn settings clock next columns.old promised.old profile.old × Whole ended.old × Whole gone.old × Whole started.old }
    ensures { (k : KeptIn settings clock next columns.old promised.old profile.old)
        → AnsweredIn (call k.model calls.tick) result ended.new started.new columns.new promised.new profile.new
        × Whole gone.new }
{
    if Scheduler::HORIZON <= clock {
        return Told::refused(Refusal::PastHorizon, clock, next);
    }
    let minute = clock + 1;
    let cleanup = settings.cleanup();
    let live = columns.live;
    let e = column_parts::expire(columns, ended, gone, minute, cleanup);
    shift_own(promised, live, gone, columns.live);
    let begun = start_due(
        columns,
        &promised.holds,
        e.starting,
        minute,
        cleanup,
        started,
    );
    profile.count = conservative_index::advance(
        &mut profile.minutes,
        &mut profile.free,
        profile.count,
        &mut profile.low,
        &mut profile.high,
        minute,
    );
    Told {
        ended: e.ended,
        started: begun,
        clock: minute,
        next,
        ..Told::NOTHING
    }
}
