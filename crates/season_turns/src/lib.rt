// One turn of a season: what comes next, and the parts of it that look at every job. The player's loop is in `season_filling`.
#![tactic(auto)]

ghost use Rattle.std.specs.Prelude.{◌≡◌, ◌+◌, ◌-◌, ◌≤◌, ◌<◌, length, set};
ghost use Rattle.text.specs.WrittenBytes.{Wrote};
ghost use Rattle.scheduler.specs.Limits.{horizon};
ghost use Rattle.guarantees.specs.Premise.{Premise};
ghost use Rattle.script_writing.specs.AnswerText.{page_bytes};
ghost use Rattle.season_reading.specs.Meaning.{meaning};
ghost use Rattle.season_rules.specs.Season.{highest_with};
ghost use Rattle.season_turns.specs.EndingSlot.{Ending};
ghost use Rattle.season_turns.specs.QuietSlots.{Calm};
ghost use Rattle.season_turns.specs.DueRows.{due_rows};
ghost use Rattle.season_turns.specs.NextTurn.{coming_of};

use scheduler::{Refusal, Scheduler};
use season_reading::Listed;
use season_rules::Arrival;

// The slot of the first job that is over at its actual run length now, or 64.
pub fn ending_slot(d: Scheduler, actuals: &[u32; 4096]) -> usize
    requires { Premise d }
    ensures { Ending actuals.now d result }
{
    for (i, &j) in d.jobs.iter().enumerate() {
        if !j.is_live() {
            return Scheduler::LIVE;
        }
        let actual = season_writing::at_ticket(actuals, j.ticket);
        if season_writing::ends_now(j, d.settings, actual, d.clock) {
            return i;
        }
    }
    Scheduler::LIVE
}

// The last minute, at most `last`, up to which nothing is due and before which no job is over at its actual run length.
pub fn quiet_until(d: Scheduler, actuals: &[u32; 4096], last: u32) -> u32
    requires { Premise d × (d.clock ≤ last) × (last ≤ horizon) }
    ensures { Calm actuals.now d last result }
{
    let mut until = last;
    for &j in &d.jobs {
        if !j.is_live() {
            return until;
        }
        let actual = season_writing::at_ticket(actuals, j.ticket);
        let quiet = quiet_minutes::quiet_of(j, d.settings, d.clock, until);
        until = season_writing::until_end(j, actual, d.clock, quiet);
    }
    until
}

// The lines of the jobs whose run the scheduler ends in the next minute.
pub fn put_due(
    page: &mut [u8],
    at: usize,
    d: Scheduler,
    arrivals: &[u32; 4096],
    actuals: &[u32; 4096],
) -> usize
    requires { Premise d × (at + page_bytes ≤ length page.old) }
    ensures { Wrote page_bytes page.old at (due_rows arrivals.now actuals.now d) page.new result }
{
    let mut p = at;
    for &j in &d.jobs {
        if !j.is_live() {
            return p;
        }
        if !j.ends_at(d.settings, d.clock + 1) {
            continue;
        }
        let arrival = season_writing::at_ticket(arrivals, j.ticket);
        let actual = season_writing::at_ticket(actuals, j.ticket);
        p = season_writing::put_ended(page, p, j, d.settings, arrival, actual);
    }
    p
}

// A number noted under a ticket.
pub fn note(list: &mut [u32; 4096], ticket: u32, v: u32)
    requires { (1 ≤ ticket) × (ticket ≤ 4096) }
    ensures { list.new ≡ set list.old (ticket - 1) v }
{
    list[(ticket - 1) as usize] = v;
}

// What comes next: the job in a slot ends at its actual run length; a line is refused without waiting for its minute; a job arrives; minutes pass,
// up to one in which a line waits to arrive; or the season is over.
#[derive(Clone, Copy)]
pub enum Coming {
    Ends(usize),
    Refuses(Refusal),
    Arrives(Arrival),
    Steps(u32),
    Over,
}

// By the line that is next.
fn by_line(listed: Listed, highest: u32, clock: u32, live: bool) -> Coming
    ensures { result ≡ coming_of 64 listed highest clock live }
{
    match listed {
        Listed::Is(a) => {
            let reason = season_reading::arrival_refusal(a, highest);
            if reason.is_none() {
                if a.minute <= clock {
                    return Coming::Arrives(a);
                }
                return Coming::Steps(a.minute);
            }
            Coming::Refuses(reason)
        }
        Listed::Malformed => Coming::Refuses(Refusal::Malformed),
        Listed::None => {
            if live {
                return Coming::Steps(Scheduler::HORIZON);
            }
            Coming::Over
        }
    }
}

// What comes next: the end of the job in a slot, if one ends now; otherwise by the next line. `live`: there is a live job.
pub fn next_turn(ending: usize, listed: Listed, highest: u32, clock: u32, live: bool) -> Coming
    ensures { result ≡ coming_of ending listed highest clock live }
{
    if ending < Scheduler::LIVE {
        return Coming::Ends(ending);
    }
    by_line(listed, highest, clock, live)
}

// The highest arrival, counting one more line.
pub fn highest_with(highest: u32, listed: Listed) -> u32
    ensures { result ≡ highest_with highest (meaning listed) }
{
    match listed {
        Listed::Is(a) => highest.max(a.minute),
        Listed::Malformed | Listed::None => highest,
    }
}
