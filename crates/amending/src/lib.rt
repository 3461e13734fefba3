// Corrected orders of waiting jobs (document 02, No. 13), of either kind: what becomes of one, and the record that one in place supersedes.
#![tactic(auto)]

ghost use Rattle.std.specs.Prelude.{◌≡◌, ◌≤◌};
ghost use Rattle.scheduler.specs.Limits.{max_nodes, longest_estimate};
ghost use Rattle.scheduler.specs.Model.{view};
ghost use Rattle.scheduler.specs.Amending.{named, grows, superseded, kept_promise, order_for};
ghost use Rattle.jobs.specs.Soundness.{Sound};
ghost use Rattle.jobs.specs.Premise.{Holds};
ghost use Rattle.job_table.specs.Parts.{part};
ghost use Rattle.amending.specs.Ways.{way_of, superseding, range_refusal, way_by, in_place_by};

use job_table::{Part, slot_of};
use scheduler::{Amendment, Departure, Job, Refusal, Scheduler, Settings, Submission};

// What becomes of a corrected order: it is refused, or withdrawn and taken in anew as this submission, or supersedes the record in place.
#[derive(Clone, Copy)]
pub enum Way {
    Refused(Refusal),
    Anew(Submission),
    InPlace,
}

// The refusal that its numbers give, in this order: 1, 2, 19.
#[tactic(auto, unfolding(crate::specs::Ways::range_refusal, scheduler::specs::Answers::verdict))]
fn range_refusal(a: Amendment, settings: Settings) -> Refusal
    ensures { result ≡ range_refusal settings a }
{
    if scheduler::outside_range(a.nodes, 1, settings.nodes) {
        return Refusal::NodesOutOfRange;
    }
    if scheduler::outside_range(a.estimate, 1, settings.longest()) {
        return Refusal::MinutesOutOfRange;
    }
    if a.estimate < a.least {
        return Refusal::LeastAboveMost;
    }
    Refusal::None
}

// Whether it asks for more nodes than the job, or for a longer held time.
fn grows(a: Amendment, job: Job, settings: Settings) -> bool
    ensures { result ≡ grows settings a job }
{
    (job.nodes as u32) < a.nodes
        || settings.run_time(job.estimate as u32) < settings.run_time(a.estimate)
}

// The submission that is taken in if it grows.
fn order_for(a: Amendment, job: Job) -> Submission
    ensures { result ≡ order_for a job }
{
    Submission {
        nodes: a.nodes,
        estimate: a.estimate,
        tenant: job.tenant,
        least: a.least,
    }
}

// The record in place. The job waits on under its ticket, where it was planned. It keeps its promise, or on EASY its intake minute, rank and
// forecast.
fn superseded(job: Job, a: Amendment) -> Job
    requires { (a.nodes ≤ max_nodes) × (a.estimate ≤ longest_estimate) × (a.least ≤ a.estimate) }
    ensures { result ≡ superseded a job }
{
    Job {
        nodes: a.nodes as u16,
        estimate: a.estimate as u16,
        least: a.least as u16,
        ..job
    }
}

// What becomes of it, by the job that it names.
fn way_for(a: Amendment, job: Job, settings: Settings) -> Way
    ensures { result ≡ way_by settings a job }
{
    let refusal = range_refusal(a, settings);
    if !refusal.is_none() {
        return Way::Refused(refusal);
    }
    if grows(a, job, settings) {
        return Way::Anew(order_for(a, job));
    }
    Way::InPlace
}

// The refusal of an order in place, by the job that it names.
fn in_place_refusal(a: Amendment, job: Job, settings: Settings) -> Refusal
    ensures { result ≡ in_place_by settings a job }
{
    if grows(a, job, settings) {
        return Refusal::NotWaiting;
    }
    range_refusal(a, settings)
}

// What becomes of a corrected order.
pub fn way_of(d: Scheduler, a: Amendment) -> Way
    requires { Holds Sound d }
    ensures { result ≡ way_of (view d) a }
{
    match slot_of(&d.jobs, Departure::Cancel, a.ticket) {
        Some(slot) => way_for(a, d.jobs[slot], d.settings),
        None => Way::Refused(Refusal::NotWaiting),
    }
}

// The promise of the job that it names, which is kept in place; 0 if there is none.
pub fn kept_promise(d: Scheduler, a: Amendment) -> u32
    requires { Holds Sound d }
    ensures { result ≡ kept_promise (named (view d) a) }
{
    match slot_of(&d.jobs, Departure::Cancel, a.ticket) {
        Some(slot) => d.jobs[slot].promise,
        None => 0,
    }
}

// The order supersedes the record in place. No job moves yet.
pub fn supersede(d: Scheduler, a: Amendment) -> Part
    requires { Holds Sound d }
    ensures { result ≡ part (superseding (view d) a) }
{
    let mut e = d;
    let mut refusal = Refusal::NotWaiting;
    if let Some(slot) = slot_of(&d.jobs, Departure::Cancel, a.ticket) {
        let job = d.jobs[slot];
        refusal = in_place_refusal(a, job, d.settings);
        if refusal.is_none() {
            e.jobs[slot] = superseded(job, a);
        }
    }
    Part::bare(refusal, e)
}
