// Tests whether the records of a scheduler that is read back fit together (document 02, No. 11), once each passes its own tests. Every minute must
// have enough nodes. On EASY the queue must also be at rest, with its head's forecast and all bounds in time. A survey puts the plan into
// lists of numbers, and the tests go over these.
#![tactic(auto)]

ghost use Rattle.std.specs.Prelude.{◌≡◌, true, ◌&&◌, ◌-◌, leb, ltb};
ghost use Rattle.lists.specs.Tests.{on};
ghost use Rattle.lists.specs.Lists.{first};
ghost use Rattle.spans.specs.Spans.{used};
ghost use Rattle.spans.specs.EveryMinute.{fits_every};
ghost use Rattle.scheduler.specs.Jobs.{is_waiting};
ghost use Rattle.scheduler.specs.Settings.{until};
ghost use Rattle.scheduler.specs.Model.{view};
ghost use Rattle.jobs.specs.Slots.{Low};
ghost use Rattle.conservative_rules.specs.Conservative.{spans};
ghost use Rattle.easy_rules.specs.Easy.{queue};
ghost use Rattle.easy_engine.specs.Found.{Asked};
ghost use Rattle.checkpoint_laws.specs.Stages.{own_plan, records_accepted, plan_accepted};
ghost use Rattle.lists.specs.EveryLoop.{every_from};
ghost use Rattle.plan_acceptance.specs.Plan.{plan_in, in_plan, PlanLow, PlanColumns, Planned};
ghost use Rattle.plan_acceptance.specs.Queue.{rests_at, Timed, QueueTimed};
ghost use Rattle.plan_acceptance.specs.Rest.{Fitting};

use scheduler::{Job, Kind, Scheduler, Settings};

// Whether the plan has this job: it is live, and on EASY it holds nodes.
fn is_planned(job: Job, kind: Kind) -> bool
    ensures { result ≡ in_plan kind job }
{
    match kind {
        Kind::Conservative => job.is_live(),
        Kind::Easy => job.is_holding(),
    }
}

// The minute from which the job's nodes are free again.
fn free_from(job: Job, settings: Settings) -> u32
    requires { Low job }
    ensures { result ≡ until settings job }
{
    if job.is_cleaning() {
        return job.end + settings.cleanup();
    }
    job.start + settings.hold_time(job.estimate as u32)
}

// The nodes, if they are taken in this minute.
fn taken(nodes: u32, from: u32, until: u32, minute: u32) -> u32
    ensures { result ≡ on (leb from minute && ltb minute until) nodes }
{
    if from <= minute && minute < until {
        return nodes;
    }
    0
}

// The jobs that the plan has, in order: their nodes, the minutes from which these are taken, and those from which they are free again. The places
// past the count are 0.
#[derive(Clone, Copy)]
pub struct Survey {
    pub held: [u32; 64],
    pub froms: [u32; 64],
    pub untils: [u32; 64],
    pub count: usize,
}

impl Survey {
    // Unused slots may stand between the jobs of the scheduler.
    pub fn of(d: Scheduler) -> Survey
        requires { PlanLow (view d) }
        ensures { PlanColumns d.settings (plan_in (view d)) result.held result.froms result.untils result.count }
    {
        let settings = d.settings;
        let kind = settings.kind;
        let mut held = [0u32; 64];
        let mut froms = [0u32; 64];
        let mut untils = [0u32; 64];
        let mut count: usize = 0;
        for &j in &d.jobs {
            if is_planned(j, kind) {
                held[count] = j.nodes as u32;
                froms[count] = j.start;
                untils[count] = free_from(j, settings);
                count += 1;
            }
        }
        Survey {
            held,
            froms,
            untils,
            count,
        }
    }

    // The nodes that the plan takes in this minute.
    fn used_at(&self, minute: u32) -> u32
        requires { Planned self.now.held self.now.froms self.now.untils self.now.count }
        ensures { (p : Planned self.now.held self.now.froms self.now.untils self.now.count) → result ≡ used minute (spans p.settings p.jobs) }
    {
        let mut sum: u32 = 0;
        for i in 0..self.count {
            sum += taken(self.held[i], self.froms[i], self.untils[i], minute);
        }
        sum
    }

    // Whether the plan takes no more than these nodes in any minute from now on. It is enough to try the minutes in which jobs begin.
    fn fits_every(&self, clock: u32, nodes: u32) -> bool
        requires { Planned self.now.held self.now.froms self.now.untils self.now.count }
        ensures { (p : Planned self.now.held self.now.froms self.now.untils self.now.count)
            → result ≡ fits_every nodes (spans p.settings p.jobs) clock }
    {
        self.froms[..self.count]
            .iter()
            .all(|&from| self.used_at(clock.max(from)) <= nodes)
    }
}

// The nodes that the first waiting job asks for, if anybody waits.
fn asked_first(d: Scheduler) -> Option<u32>
    ensures { Asked (first is_waiting d.jobs) result }
{
    for &j in &d.jobs {
        if j.is_waiting() {
            return Some(j.nodes as u32);
        }
    }
    None
}

// Whether a waiting job with this many ahead of it passes, where the head can start in this minute. It must keep its bound. The head's forecast
// must not be before that minute; any other job must have no forecast and may not pass the head.
fn rests(
    job: Job,
    ahead: u32,
    minute: u32,
    spare: u32,
    extra: u32,
    room: u32,
    settings: Settings,
) -> bool
    requires { Timed ahead minute job }
    ensures { result ≡ rests_at settings spare extra room minute ahead job }
{
    let unit = settings.unit();
    if job.submitted + job.rank * unit < minute + ahead * unit {
        return false;
    }
    if ahead == 0 {
        return minute <= job.forecast;
    }
    if job.forecast != 0 {
        return false;
    }
    !easy_engine::may_pass(
        job.nodes as u32,
        job.estimate as u32,
        spare,
        extra,
        room,
        settings,
    )
}

// Whether every waiting job passes, where the head can start in this minute.
fn queue_rests(d: Scheduler, minute: u32, spare: u32, extra: u32) -> bool
    requires { QueueTimed d minute }
    ensures { result ≡ every_from (rests_at d.settings spare extra (minute - d.clock) minute) 0 (queue d.jobs) }
{
    let settings = d.settings;
    let room = minute - d.clock;
    let mut ahead: u32 = 0;
    for &j in &d.jobs {
        if j.is_waiting() {
            if !rests(j, ahead, minute, spare, extra, room, settings) {
                return false;
            }
            ahead += 1;
        }
    }
    true
}

// On EASY, of a plan that fits: whether the queue is at rest, with its head's forecast and all bounds in time. What the plan takes now are the
// nodes that are held now.
fn queue_accepted(d: Scheduler, plan: &Survey) -> bool
    requires { Fitting d plan.now.held plan.now.froms plan.now.untils plan.now.count }
    ensures { result ≡ own_plan Kind.Easy (view d) }
{
    let Some(need) = asked_first(d) else {
        return true;
    };
    let settings = d.settings;
    let clock = d.clock;
    let spare = settings.nodes - plan.used_at(clock);
    if need <= spare {
        return false;
    }
    let latest = clock + settings.unit();
    let minute = easy_engine::shadow(&plan.held, &plan.untils, plan.count, spare, need, latest);
    let extra = easy_engine::avail_at(&plan.held, &plan.untils, plan.count, spare, minute) - need;
    queue_rests(d, minute, spare, extra)
}

// Whether every minute fits the machine, and on EASY whether the queue is at rest, with its head's forecast and all bounds in time. Each record has
// passed its own tests.
pub fn plan_accepted(d: Scheduler) -> bool
    requires { records_accepted (view d) ≡ true }
    ensures { result ≡ plan_accepted (view d) }
{
    let plan = Survey::of(d);
    let settings = d.settings;
    if !plan.fits_every(d.clock, settings.nodes) {
        return false;
    }
    let kind = settings.kind;
    match kind {
        Kind::Conservative => true,
        Kind::Easy => queue_accepted(d, &plan),
    }
}
