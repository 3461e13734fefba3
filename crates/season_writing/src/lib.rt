// What a season prints of a job that ends, and when the job ends: at its actual run length, which the scheduler does not know.
#![tactic(auto)]

ghost use Rattle.std.specs.Prelude.{◌≡◌, ◌&&◌, ℕ, ◌+◌, ◌-◌, ◌*◌, ◌/◌, ◌≤◌, ◌<◌, min, max, eqb, ltb, length, get_or};
ghost use Rattle.text.specs.WrittenBytes.{Wrote};
ghost use Rattle.scheduler.specs.Limits.{horizon, longest_hold};
ghost use Rattle.scheduler.specs.Jobs.{is_running};
ghost use Rattle.scheduler.specs.Settings.{run_time};
ghost use Rattle.season_rules.specs.Season.{of_ticket, slowdown, row};

use scheduler::{Job, Settings};

// What is noted under a ticket; tickets begin at 1.
pub fn at_ticket(list: &[u32; 4096], ticket: u32) -> u32
    ensures { result ≡ of_ticket list.now ticket }
{
    let place = ticket.saturating_sub(1) as usize;
    list.get(place).copied().unwrap_or(0)
}

// A ratio in hundredths, rounded down.
fn hundredths(a: u32, b: u32) -> u32
    requires { (a ≤ horizon + longest_hold) × (1 ≤ b) }
    ensures { result ≡ a * 100 / b }
{
    a * 100 / b
}

// The bounded slowdown in hundredths: how many times its run length a job took from its arrival on. A run shorter than ten minutes counts as ten.
pub fn slowdown(wait: u32, run: u32) -> u32
    requires { (wait ≤ horizon) × (run ≤ longest_hold) }
    ensures { result ≡ slowdown wait run }
{
    hundredths(wait + run, run.max(10))
}

// Whether its actual run length ends it in this minute, before the scheduler would. (A difference, so that no sum can leave its range.)
pub fn ends_now(job: Job, settings: Settings, actual: u32, clock: u32) -> bool
    ensures { result ≡ (is_running job && (ltb actual (run_time settings job.estimate) && eqb (job.start + actual) clock)) }
{
    clock.checked_sub(job.start) == Some(actual)
        && actual < settings.run_time(job.estimate as u32)
        && job.is_running()
}

fn put_row(page: &mut [u8], at: usize, a: u32, b: u32, c: u32) -> usize
    requires { at + 33 ≤ length page.old }
    ensures { Wrote 33 page.old at (row a b c) page.new result }
{
    let p = text::put_number(page, at, a);
    let q = script_writing::put_field(page, p, b);
    script_writing::put_last(page, q, c)
}

// The line of a job that has ended: its ticket, wait and slowdown.
pub fn put_ended(
    page: &mut [u8],
    at: usize,
    job: Job,
    settings: Settings,
    arrival: u32,
    actual: u32,
) -> usize
    requires { (at + 33 ≤ length page.old) × (job.start ≤ horizon) }
    ensures { Wrote 33 page.old at (row job.ticket (job.start - arrival)
        (slowdown (job.start - arrival) (min actual (run_time settings job.estimate)))) page.new result }
{
    let wait = job.start.saturating_sub(arrival);
    let ran = actual.min(settings.run_time(job.estimate as u32));
    let slow = slowdown(wait, ran);
    put_row(page, at, job.ticket, wait, slow)
}

// The minute in which its actual run length is over, if that is after the clock and not after `last`; otherwise `last`.
pub fn until_end(job: Job, actual: u32, clock: u32, last: u32) -> u32
    requires { clock ≤ last }
    ensures { (clock ≤ result) × (result ≤ last) × ((t : ℕ) → clock < t → t < result → job.start + actual ≡ t → ⊥) }
{
    match job.start.checked_add(actual) {
        Some(end) if clock < end && end <= last => end,
        _ => last,
    }
}
