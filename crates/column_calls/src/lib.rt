// The calls of either kind over columns, lent lists that are kept from call to call. Conservative backfilling keeps the profile and its index beside
// the jobs, EASY backfilling who holds nodes and until when. What a kind does not keep of a job stays 0.
#![tactic(auto)]

ghost use Rattle.std.specs.Prelude.{List, ◌≤◌, ◌≡◌, length};
ghost use Rattle.scheduler.specs.declared.Job.{Job};
ghost use Rattle.scheduler.specs.declared.Settings.{Settings};
ghost use Rattle.scheduler.specs.Limits.{slots};
ghost use Rattle.scheduler.specs.Model.{view};
ghost use Rattle.history.specs.Calls as calls;
ghost use Rattle.job_columns.specs.Columns.{Column, Whole};
ghost use Rattle.job_columns.specs.JobColumns.{due_of};
ghost use Rattle.guarantees.specs.Rules as rules;
ghost use Rattle.guarantees.specs.Premise.{Premise};
ghost use Rattle.column_calls.specs.Held.{KindIn, UnwrittenIn, LentIn, GivesIn};
ghost use Rattle.column_calls.specs.DueColumns.{BeforeDue, AllQuiet};

use column_parts::Told;
use conservative_columns::{Profile, Promised};
use easy_columns::{Occupancy, Queue};
use job_columns::Columns;
use scheduler::{Kind, Request, Scheduler, Settings};

// The lists that are kept from call to call, with their counts: the columns of both kinds, and what either kind keeps besides.
#[derive(Drop)]
pub struct Lists {
    pub columns: Columns,
    pub promised: Promised,
    pub profile: Profile,
    pub queue: Queue,
    pub occupancy: Occupancy,
}

// The columns of a scheduler.
pub fn begin(d: Scheduler, lists: &mut Lists)
    requires { Premise d × UnwrittenIn lists.old }
    ensures { KindIn (view d) lists.new }
{
    let settings = d.settings;
    job_columns::spread(
        d,
        &mut lists.columns,
        &mut lists.promised.promises,
        &mut lists.queue.submitted,
        &mut lists.queue.ranks,
        &mut lists.queue.forecasts,
    );
    match settings.kind {
        Kind::Conservative => {
            let columns = &lists.columns;
            conservative_columns::begin(
                &columns.estimates,
                columns.live,
                &mut lists.promised.holds,
                settings,
            );
            let profile = &mut lists.profile;
            profile.count = kept_calls::begin(
                d,
                &mut profile.minutes,
                &mut profile.free,
                &mut profile.low,
                &mut profile.high,
            );
            lists.occupancy.holding = 0;
            lists.occupancy.spare = 0;
        }
        Kind::Easy => {
            easy_columns::begin(
                &lists.columns,
                &mut lists.queue.asked,
                &mut lists.occupancy,
                settings,
            );
            lists.profile.count = 0;
        }
    }
}

// The call that the request asks for, by the kind's rules.
pub fn call(
    lists: &mut Lists,
    ended: &mut [u32; 64],
    gone: &mut [u32; 64],
    started: &mut [u32; 64],
    settings: Settings,
    clock: u32,
    next: u32,
    request: Request,
) -> Told
    requires { LentIn settings clock next lists.old × Whole ended.old × Whole gone.old × Whole started.old }
    ensures { (k : LentIn settings clock next lists.old)
        → GivesIn (rules.call (view k.scheduler) (calls.asked request)) result ended.new started.new lists.new × Whole gone.new }
{
    let columns = &mut lists.columns;
    let promised = &mut lists.promised;
    let profile = &mut lists.profile;
    let queue = &mut lists.queue;
    let occupancy = &mut lists.occupancy;
    match settings.kind {
        Kind::Conservative => match request {
            Request::Submit(s) => conservative_columns::submit(
                columns, promised, profile, started, settings, clock, next, s,
            ),
            Request::Depart(how, ticket) => conservative_columns::depart(
                columns, promised, profile, ended, gone, started, settings, clock, next, how,
                ticket,
            ),
            Request::Tick => conservative_columns::tick(
                columns, promised, profile, ended, gone, started, settings, clock, next,
            ),
        },
        Kind::Easy => match request {
            Request::Submit(s) => easy_columns::submit(
                columns, queue, occupancy, started, clock, next, settings, s,
            ),
            Request::Depart(how, ticket) => easy_columns::depart(
                columns, queue, occupancy, ended, gone, started, clock, next, settings, how, ticket,
            ),
            Request::Tick => easy_columns::tick(
                columns, queue, occupancy, ended, gone, started, clock, next, settings,
            ),
        },
    }
}

// The last minute before somebody is due: no sooner than the clock, and no later than this one.
pub fn before_due(due: u32, clock: u32, last: u32) -> u32
    requires { clock ≤ last }
    ensures { BeforeDue due clock last result }
{
    if due <= clock {
        return clock;
    }
    if due <= last {
        return due - 1;
    }
    last
}

// The minute up to which nothing is due for any live job.
pub fn quiet_until(columns: &Columns, clock: u32, last: u32) -> u32
    requires { (columns.now.live ≤ slots) × (clock ≤ last) }
    ensures { (clock ≤ result) × (result ≤ last)
        × ((S : Settings) (js : List Job) → Column (due_of S) js columns.now.dues → length js ≡ columns.now.live → AllQuiet S js clock result) }
{
    before_due(columns.next_due(), clock, last)
}
