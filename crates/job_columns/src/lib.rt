// The live jobs of a scheduler in columns: lent lists of numbers, one for each field, in ticket order; the places after them are 0. Here are the
// columns that both kinds have, and what becomes of them where a job comes in, begins, is in cleanup or leaves.
#![tactic(auto)]

ghost use Rattle.std.specs.Prelude.{◌≡◌, ◌==◌, List, [], ◌∷◌, ◌++◌, map, ℕ, ◌+◌, ◌-◌, ◌≤◌, ◌<◌, length, get_or, set, take, count_by};
ghost use Rattle.lists.specs.Lists.{keep};
ghost use Rattle.lists.specs.Loops.{position};
ghost use Rattle.lists.specs.Pads.{pad};
ghost use Rattle.scheduler.specs.declared.Job.{Job};
ghost use Rattle.scheduler.specs.declared.Settings.{Settings};
ghost use Rattle.scheduler.specs.declared.State.TheVariants.{Running};
ghost use Rattle.scheduler.specs.Limits.{slots, horizon, longest_hold, longest_cleanup};
ghost use Rattle.scheduler.specs.Tenants.{number};
ghost use Rattle.scheduler.specs.Jobs.{unused, is_waiting, job_at};
ghost use Rattle.scheduler.specs.Settings.{run_time, cleanup as cleanupOf};
ghost use Rattle.scheduler.specs.Table.{ticket_of, live_of};
ghost use Rattle.scheduler.specs.Model.{store, view};
ghost use Rattle.jobs.specs.Soundness.{Sound};
ghost use Rattle.jobs.specs.Premise.{Holds};
ghost use Rattle.jobs.specs.Order.{Asc};
ghost use Rattle.jobs.specs.Slots.{Low};
ghost use Rattle.job_columns.specs.Removal.{remove_at, removes, Places};
ghost use Rattle.job_columns.specs.Columns.{Column, Whole};
ghost use Rattle.job_columns.specs.JobColumns.{state_number, state_of, tenant_of, due_of, never};
ghost use Rattle.job_columns.specs.Encoding.{state_at, tenant_at, end_at};
ghost use Rattle.job_columns.specs.Gathering.{NoEnd};
ghost use Rattle.job_columns.specs.Held.{ColumnsOf, FieldsOf, BlankColumns, ColumnsOfScheduler, PlaceFits, Retimed, Restated, BeginsIn, CleansIn};
ghost use Rattle.job_columns.specs.Searches.{place_of, has_ticket, FirstDue, soonest};

use scheduler::{Job, Scheduler, Settings, State, Tenant};

// A minute that no clock reaches.
const NEVER: u32 = 4_000_000;

// The columns that both kinds have, and how many jobs are live.
#[derive(Drop)]
pub struct Columns {
    pub tickets: [u32; 64],
    pub nodes: [u32; 64],
    pub states: [u32; 64],
    pub dues: [u32; 64],
    pub starts: [u32; 64],
    pub tenants: [u32; 64],
    pub estimates: [u32; 64],
    pub leasts: [u32; 64],
    pub live: usize,
}

fn tenant_number(t: Tenant) -> u32
    ensures { result ≡ number t }
{
    match t {
        Tenant::Nobody => 0,
        Tenant::A => 1,
        Tenant::B => 2,
    }
}

fn state_number(s: State) -> u32
    ensures { result ≡ state_number s }
{
    match s {
        State::Unused => 0,
        State::Waiting => 1,
        State::Running => 2,
        State::Cleanup => 3,
    }
}

// When the job is due next: it starts, its run ends, or its nodes are free. A waiting job of EASY has no planned start.
fn due(job: Job, settings: Settings) -> u32
    requires { Low job }
    ensures { result ≡ due_of settings job }
{
    match job.state {
        State::Waiting if job.start == 0 => NEVER,
        State::Waiting => job.start,
        State::Unused | State::Running => job.start + settings.run_time(job.estimate as u32),
        State::Cleanup => job.end + settings.cleanup(),
    }
}

impl Columns {
    // A job comes in, last.
    pub fn append(&mut self, j: Job, settings: Settings)
        requires { (self.old.live < slots) × Low j }
        ensures appended { (js : List Job) → ColumnsOf settings js self.old → ColumnsOf settings (js ++ (j ∷ [])) self.new }
        ensures one_more { self.new.live ≡ self.old.live + 1 }
    {
        let at = self.live;
        self.tickets[at] = j.ticket;
        self.nodes[at] = j.nodes as u32;
        self.states[at] = state_number(j.state);
        self.dues[at] = due(j, settings);
        self.starts[at] = j.start;
        self.tenants[at] = tenant_number(j.tenant);
        self.estimates[at] = j.estimate as u32;
        self.leasts[at] = j.least as u32;
        self.live += 1;
    }

    // A job leaves.
    pub fn remove(&mut self, at: usize)
        requires { (at < self.old.live) × (self.old.live ≤ slots) }
        ensures removed { (S : Settings) (js : List Job) → ColumnsOf S js self.old → ColumnsOf S (remove_at at js) self.new }
        ensures one_less { self.new.live ≡ self.old.live - 1 }
    {
        let live = self.live;
        shift(&mut self.tickets, live, at);
        shift(&mut self.nodes, live, at);
        shift(&mut self.states, live, at);
        shift(&mut self.dues, live, at);
        shift(&mut self.starts, live, at);
        shift(&mut self.tenants, live, at);
        shift(&mut self.estimates, live, at);
        shift(&mut self.leasts, live, at);
        self.live = live - 1;
    }

    // A waiting job runs from now on, for so many minutes.
    pub fn begin(&mut self, at: usize, clock: u32, run: u32)
        requires { (at < slots) × (clock ≤ horizon) × (run ≤ longest_hold) }
        ensures begun { BeginsIn at clock run self.old self.new }
        ensures retimed { Retimed self.old self.new }
    {
        self.states[at] = 2;
        self.dues[at] = clock + run;
        self.starts[at] = clock;
    }

    // Its run ends in this minute, its nodes stay taken for the cleanup.
    pub fn clean(&mut self, at: usize, clock: u32, cleanup: u32)
        requires { (at < slots) × (clock ≤ horizon) × (cleanup ≤ longest_cleanup) }
        ensures cleaned { CleansIn at clock cleanup self.old self.new }
        ensures restated { Restated self.old self.new }
    {
        self.states[at] = 3;
        self.dues[at] = clock + cleanup;
    }

    // The place of a ticket, by halves; where no job has it, the place past the last.
    pub fn find(&self, ticket: u32) -> usize
        requires { self.now.live ≤ slots }
        ensures { (js : List Job) → Column ticket_of js self.now.tickets → Asc 1 js → length js ≡ self.now.live
            → result ≡ place_of (position (has_ticket ticket) js) self.now.live }
    {
        let mut low: usize = 0;
        let mut high = self.live;
        while low < high {
            let middle = (low + high) / 2;
            if self.tickets[middle] < ticket {
                low = middle + 1;
            } else {
                high = middle;
            }
        }
        if low < self.live && self.tickets[low] == ticket {
            low
        } else {
            self.live
        }
    }

    // The first place from this one on of a job that is due in this minute, or the place past the last.
    pub fn first_due(&self, from: usize, minute: u32) -> usize
        requires { (from ≤ self.now.live) × (self.now.live ≤ slots) }
        ensures { FirstDue self.now.dues from self.now.live minute result }
    {
        for i in from..self.live {
            if self.dues[i] == minute {
                return i;
            }
        }
        self.live
    }

    // The first minute in which somebody is due.
    pub fn next_due(&self) -> u32
        requires { self.now.live ≤ slots }
        ensures { (f : Job → ℕ) (js : List Job) → Column f js self.now.dues → length js ≡ self.now.live → result ≡ soonest never (map f js) }
    {
        let mut first = NEVER;
        for i in 0..self.live {
            first = first.min(self.dues[i]);
        }
        first
    }

    // How many live jobs are this tenant's.
    pub fn of_tenant(&self, tenant: Tenant) -> usize
        requires { self.now.live ≤ slots }
        ensures { (js : List Job) → Column tenant_of js self.now.tenants → length js ≡ self.now.live → result ≡ live_of tenant js }
    {
        count_of(&self.tenants, self.live, tenant_number(tenant))
    }

    // How many wait.
    pub fn waiting(&self) -> usize
        requires { self.now.live ≤ slots }
        ensures { (js : List Job) → Column state_of js self.now.states → length js ≡ self.now.live → result ≡ length (keep is_waiting js) }
    {
        count_of(&self.states, self.live, 1)
    }
}

// The columns of a scheduler, in lists that are all 0.
pub fn spread(
    d: Scheduler,
    columns: &mut Columns,
    promises: &mut [u32; 64],
    submitted: &mut [u32; 64],
    ranks: &mut [u32; 64],
    forecasts: &mut [u32; 64],
)
    requires { Holds Sound d × BlankColumns columns.old promises.old submitted.old ranks.old forecasts.old }
    ensures { FieldsOf d.settings (view d).jobs columns.new promises.new submitted.new ranks.new forecasts.new }
{
    let settings = d.settings;
    columns.live = 0;
    for i in 0..Scheduler::LIVE {
        let j = d.jobs[i];
        if !j.is_live() {
            return;
        }
        columns.append(j, settings);
        promises[i] = j.promise;
        submitted[i] = j.submitted;
        ranks[i] = j.rank;
        forecasts[i] = j.forecast;
    }
}

fn state_of(n: u32) -> State
    ensures { result ≡ state_at n }
{
    match n {
        1 => State::Waiting,
        2 => State::Running,
        3 => State::Cleanup,
        _ => State::Unused,
    }
}

fn tenant_of(n: u32) -> Tenant
    ensures { result ≡ tenant_at n }
{
    match n {
        1 => Tenant::A,
        2 => Tenant::B,
        _ => Tenant::Nobody,
    }
}

// The end of a run, by when its nodes are free; only a job in cleanup has one.
fn end_of(state: u32, due: u32, cleanup: u32) -> u32
    requires { state ≡ 3 → cleanup ≤ due }
    ensures { result ≡ end_at state due cleanup }
{
    if state == 3 { due - cleanup } else { 0 }
}

// The job in this place.
fn job_at(
    columns: &Columns,
    promises: &[u32; 64],
    submitted: &[u32; 64],
    ranks: &[u32; 64],
    forecasts: &[u32; 64],
    i: usize,
    cleanup: u32,
) -> Job
    requires { (i < slots) × PlaceFits columns.now i cleanup }
    ensures { (S : Settings) (js : List Job) → FieldsOf S js columns.now promises.now submitted.now ranks.now forecasts.now
        → i < columns.now.live → cleanup ≡ cleanupOf S → NoEnd (get_or js i unused) → result ≡ get_or js i unused }
{
    let state = columns.states[i];
    Job {
        ticket: columns.tickets[i],
        nodes: columns.nodes[i] as u16,
        estimate: columns.estimates[i] as u16,
        state: state_of(state),
        tenant: tenant_of(columns.tenants[i]),
        least: columns.leasts[i] as u16,
        start: columns.starts[i],
        promise: promises[i],
        end: end_of(state, columns.dues[i], cleanup),
        submitted: submitted[i],
        rank: ranks[i],
        forecast: forecasts[i],
    }
}

// The scheduler that the columns are of.
pub fn gather(
    columns: &Columns,
    promises: &[u32; 64],
    submitted: &[u32; 64],
    ranks: &[u32; 64],
    forecasts: &[u32; 64],
    settings: Settings,
    clock: u32,
    next: u32,
) -> Scheduler
    requires { ColumnsOfScheduler settings clock next columns.now promises.now submitted.now ranks.now forecasts.now }
    ensures { (k : ColumnsOfScheduler settings clock next columns.now promises.now submitted.now ranks.now forecasts.now) → result ≡ store k.model }
{
    let mut jobs = [Job::unused(); 64];
    let cleanup = settings.cleanup();
    for i in 0..columns.live {
        jobs[i] = job_at(columns, promises, submitted, ranks, forecasts, i, cleanup);
    }
    Scheduler {
        settings,
        clock,
        next,
        jobs,
    }
}

// A place of a column leaves, those after it move up.
pub fn shift(list: &mut [u32; 64], live: usize, at: usize)
    requires { (at < live) × (live ≤ slots) }
    ensures { (xs : List ℕ) → list.old ≡ pad slots 0 xs → length xs ≡ live → list.new ≡ pad slots 0 (remove_at at xs) }
{
    list.copy_within(at + 1..live, at);
    list[live - 1] = 0;
}

// The jobs in these places have left, one after another.
pub fn shift_all(list: &mut [u32; 64], live: usize, gone: &[u32; 64], count: usize)
    requires { (live ≤ slots) × (count ≤ live) × Whole gone.now × Places live (take count gone.now) }
    ensures { (xs : List ℕ) → list.old ≡ pad slots 0 xs → length xs ≡ live
        → list.new ≡ pad slots 0 (removes (take count gone.now) xs) }
{
    for k in 0..count {
        shift(list, live - k, gone[k] as usize);
    }
}

// How many of the first numbers are this one.
fn count_of(list: &[u32; 64], live: usize, wanted: u32) -> usize
    requires { live ≤ slots }
    ensures { result ≡ count_by (λ x. x == wanted) (take live list.now) }
{
    list[..live].iter().filter(|&&n| n == wanted).count()
}
