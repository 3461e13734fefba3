// A scheduler read back from its lines (document 02, No. 11: "A desk must be written out and read back"): the lines are read, and what they give is
// tested.
#![tactic(auto)]

ghost use Rattle.std.specs.Prelude.{◌≡◌, ◌≤◌, length};
ghost use Rattle.checkpoint_rules.specs.Texts.{not_restored, restored_from, model_with, both};
ghost use Rattle.script_reading.specs.Meaning.{opens};
ghost use Rattle.checkpoint_reading.specs.Records.{records_from};
ghost use Rattle.restoring.specs.Restoring.{handed_back, restoring, Judged};

use checkpoint_reading::Fault;
use scheduler::{Kind, Opened, Opening, Refusal, Scheduler, Settings};

// What a refused reading hands back: why it is refused, and an empty scheduler of the conservative kind, as a refused opening does.
fn refused(why: Refusal) -> Opened
    ensures { result ≡ handed_back (not_restored why) }
{
    Opened {
        refusal: why,
        scheduler: Scheduler::empty(Settings::of_refused(Kind::Conservative), 0, 1),
    }
}

// What the records give, once all lines are read.
fn judge(read: Result<Scheduler, Fault>) -> Opened
    ensures { Judged read result }
{
    match read {
        Ok(scheduler) => {
            if acceptance::accepted(scheduler) {
                return Opened {
                    refusal: Refusal::None,
                    scheduler,
                };
            }
            refused(Refusal::TextRejected)
        }
        Err(Fault::Unacceptable) => refused(Refusal::TextRejected),
        Err(Fault::Malformed) => refused(Refusal::TextMalformed),
    }
}

// What the records from a place on give, after the first line.
fn restore_after(first: Option<Opening>, text: &[u8], from: usize) -> Opened
    requires { from ≤ length text.now }
    ensures { result ≡ handed_back (restored_from (both model_with (opens first) (records_from text.now from))) }
{
    match first {
        Some(o) => {
            let d = Scheduler::empty(o.settings, o.minute, o.ticket);
            judge(checkpoint_reading::read_records(text, from, d))
        }
        None => refused(Refusal::TextMalformed),
    }
}

// The scheduler that a text gives. It is refused by 22 if a line lacks the form or is unclosed, or there is none, and then by 23 if it is not
// accepted.
pub fn restore(text: &[u8]) -> Opened
    ensures { result ≡ restoring text.now }
{
    let line = text::next_line(text, 0);
    let end = line.end;
    if line.closed {
        let first = script_reading::read_first(&text[..end]);
        return restore_after(first, text, end + 1);
    }
    refused(Refusal::TextMalformed)
}
