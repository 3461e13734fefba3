// How long may a job be and still start by a wanted minute (document 02, No. 9)? Only conservative backfilling answers this. Longer estimates never
// get earlier starts. So the answer follows from the longest free stretch that begins no later than the wanted minute.
#![tactic(auto)]

ghost use Rattle.std.specs.Prelude.{◌≡◌, ◌<◌, ◌≤◌, length};
ghost use Rattle.scheduler.specs.Model.{view};
ghost use Rattle.jobs.specs.Premise.{Holds};
ghost use Rattle.jobs.specs.Soundness.{Fit};
ghost use Rattle.job_table.specs.Parts.{shared_refusal};
ghost use Rattle.conservative_rules.specs.LongestEstimate.{asking, longest_estimate};
ghost use Rattle.conservative_laws.specs.Validity.{Valid};
ghost use Rattle.conservative_table.specs.ListChanges.{rows};
ghost use Rattle.longest.specs.Scan.{edge, longer, Scans, Widest};

use scheduler::{Inquiry, Longest, Refusal, Scheduler, Submission};

// The minute of the point in this place; after the last point, the last minute.
fn edge(minutes: &[u32; 131], i: usize, count: usize) -> u32
    requires { (length minutes.now ≡ rows) × (count ≤ rows) }
    ensures { result ≡ edge minutes.now count i }
{
    if i < count {
        minutes[i]
    } else {
        Scheduler::HORIZON
    }
}

// The longest free stretch so far, with one more from one minute to another. A stretch that begins too late does not count.
fn longer(longest: u32, since: u32, end: u32, by: u32) -> u32
    requires { since ≤ end }
    ensures { result ≡ longer longest since end by }
{
    if by < since {
        return longest;
    }
    longest.max(end - since)
}

// The longest time, up to the last minute, for which the nodes are free without a break from some minute on that is not after `by`.
fn widest(minutes: &[u32; 131], free: &[u32; 131], count: usize, nodes: u32, by: u32) -> u32
    requires { Scans minutes.now free.now count nodes by }
    ensures { (s : Scans minutes.now free.now count nodes by) → Widest s result }
{
    let mut since = minutes[0];
    let mut longest: u32 = 0;
    for (i, &left) in free[..count].iter().enumerate() {
        let end = edge(minutes, i + 1, count);
        if left < nodes {
            since = end;
        } else {
            longest = longer(longest, since, end, by);
        }
    }
    longest
}

// The largest estimate for which there is room by the wanted minute, once the other conditions of a submission are met. If there is room for none
// before the last minute, an estimate of 1 would be refused.
fn by_room(d: Scheduler, q: Inquiry) -> Longest
    requires { Holds Valid d × Fit (view d) (asking q 1) × ((view d).clock ≤ q.minute) }
    ensures { result ≡ longest_estimate (view d) q }
{
    let settings = d.settings;
    let mut minutes = [0u32; 131];
    let mut free = [0u32; 131];
    let count = conservative_plan::tabulate(d, &mut minutes, &mut free);
    let estimate = settings.longest_within(widest(&minutes, &free, count, q.nodes, q.minute));
    if 0 < estimate {
        return Longest {
            refusal: Refusal::None,
            estimate,
        };
    }
    let ever = settings.longest_within(widest(&minutes, &free, count, q.nodes, Scheduler::HORIZON));
    if ever == 0 {
        return Longest {
            refusal: Refusal::PastHorizon,
            estimate: 0,
        };
    }
    Longest {
        refusal: Refusal::None,
        estimate: 0,
    }
}

// Why a submission with an estimate of 1 would be refused, the last minute left aside.
fn shared_refusal(d: Scheduler, q: Inquiry) -> Refusal
    requires { Holds Valid d }
    ensures { result ≡ shared_refusal (view d) (asking q 1) }
{
    let settings = d.settings;
    let tenant = q.tenant;
    let shortest = Submission {
        nodes: q.nodes,
        estimate: 1,
        tenant,
        least: 0,
    };
    let slot = job_table::first_unused(d);
    let live = job_table::live_of(d, slot, tenant, settings.quota(tenant));
    job_table::submit_refusal(shortest, settings, live, d.next)
}

// The largest estimate with which a submission now would be promised the wanted minute or an earlier one.
pub fn estimate(d: Scheduler, q: Inquiry) -> Longest
    requires { Holds Valid d }
    ensures { result ≡ longest_estimate (view d) q }
{
    if q.minute < d.clock {
        return Longest {
            refusal: Refusal::WantedMinutePast,
            estimate: 0,
        };
    }
    let refusal = shared_refusal(d, q);
    if refusal.is_none() {
        return by_room(d, q);
    }
    Longest {
        refusal,
        estimate: 0,
    }
}
