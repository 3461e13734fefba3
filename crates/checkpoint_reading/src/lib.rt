// Reads the lines of a scheduler that was written out (document 02, No. 11): a record's line. (`script_reading::read_first` reads the `desk` line.)
#![tactic(auto)]

ghost use Rattle.std.specs.Prelude.{◌≡◌, [], ◌≤◌, length};
ghost use Rattle.lists.specs.Pads.{pad};
ghost use Rattle.scheduler.specs.Jobs.{unused};
ghost use Rattle.scheduler.specs.Table.{with_jobs};
ghost use Rattle.checkpoint_rules.specs.Texts.{state_of, job_in};
ghost use Rattle.checkpoint_reading.specs.Meaning.{state_from, beyond, given_by, record_from};
ghost use Rattle.checkpoint_reading.specs.RecordLoop.{Told};

use scheduler::{Job, Scheduler, State, Tenant};
use text::Numbers;

// Why lines give no records: one lacks the form; or no scheduler has what they say, since a number is out of range or there are too many.
#[derive(Clone, Copy)]
pub enum Fault {
    Malformed,
    Unacceptable,
}

// The state that a letter names.
fn read_state(part: &[u8]) -> Option<State>
    ensures { result ≡ state_from (state_of part.now) }
{
    if text::is_word(part, b"w") {
        return Some(State::Waiting);
    }
    if text::is_word(part, b"r") {
        return Some(State::Running);
    }
    text::is_word(part, b"c").then_some(State::Cleanup)
}

// Whether a record's nodes or run lengths are above all limits.
fn is_beyond(nodes: u32, estimate: u32, least: u32) -> bool
    ensures { result ≡ beyond nodes estimate least }
{
    Scheduler::NODES < nodes
        || Scheduler::LONGEST_ESTIMATE < estimate
        || Scheduler::LONGEST_ESTIMATE < least
}

// The record of these numbers, state and house. One with numbers out of range may not fit its fields.
fn record(
    first: Numbers,
    state: Option<State>,
    times: Numbers,
    house: Option<u32>,
    kept: Numbers,
) -> Result<Job, Fault>
    ensures { result ≡ given_by (record_from first state times house kept) }
{
    if first.count < 3 || times.count < 3 || kept.count < 4 {
        return Err(Fault::Malformed);
    }
    let Some(state) = state else {
        return Err(Fault::Malformed);
    };
    if state == State::Unused {
        return Err(Fault::Malformed);
    }
    let Some(letter) = house else {
        return Err(Fault::Malformed);
    };
    let [ticket, nodes, estimate, ..] = first.values;
    let [start, promise, end, ..] = times.values;
    let [least, submitted, rank, forecast, ..] = kept.values;
    if is_beyond(nodes, estimate, least) {
        return Err(Fault::Unacceptable);
    }
    Ok(Job {
        ticket,
        nodes: nodes as u16,
        estimate: estimate as u16,
        state,
        tenant: Tenant::of_letter(letter),
        least: least as u16,
        start,
        promise,
        end,
        submitted,
        rank,
        forecast,
    })
}

// The record that a line of twelve fields gives.
pub fn read_job(line: &[u8]) -> Result<Job, Fault>
    ensures { result ≡ given_by (job_in line.now) }
{
    if text::field_count(line) != 12 {
        return Err(Fault::Malformed);
    }
    let first = text::field_numbers(line, 0);
    let state = read_state(text::field(line, 3));
    let times = text::field_numbers(line, 4);
    let house = text::capital(text::field(line, 7));
    let kept = text::field_numbers(line, 8);
    record(first, state, times, house, kept)
}

// Reads the records of a text from a place on into the slots of a scheduler that has no records.
pub fn read_records(text: &[u8], from: usize, d: Scheduler) -> Result<Scheduler, Fault>
    requires { (from ≤ length text.now) × (d ≡ with_jobs d (pad 64 unused [])) }
    ensures { Told text.now from d result }
{
    let mut e = d;
    let mut count: usize = 0;
    let mut bad = false;
    let mut at = from;
    while at < text.len() {
        let line = text::next_line(text, at);
        if !line.closed {
            return Err(Fault::Malformed);
        }
        match read_job(&text[at..line.end]) {
            Ok(job) => {
                if count < Scheduler::LIVE {
                    e.jobs[count] = job;
                    count += 1;
                } else {
                    bad = true;
                }
            }
            Err(Fault::Unacceptable) => bad = true,
            Err(Fault::Malformed) => return Err(Fault::Malformed),
        }
        at = line.end + 1;
    }
    if bad {
        return Err(Fault::Unacceptable);
    }
    Ok(e)
}
