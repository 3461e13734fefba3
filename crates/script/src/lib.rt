// A script played into a lent page, page after page. A line, or one step of a wait, is a turn. Its lines stand in the page after those of the turns
// before.
#![tactic(auto)]

ghost use Rattle.std.specs.Prelude.{◌≡◌, ◌≤◌, length};
ghost use Rattle.paging.specs.PageFilling.{Filled};
ghost use Rattle.script_writing.specs.AnswerText.{page_bytes};
ghost use Rattle.script_play.specs.declared.Stage.TheVariants.{Playing};
ghost use Rattle.script_play.specs.Pieces.{beginning};
ghost use Rattle.script_play.specs.Progress.{InPlay};
ghost use Rattle.script_play.proofs.Progress.{script_player};

use scheduler::{Kind, Opening, Refusal, Scheduler, Settings};
use script_play::{Play, Played, Stage};
use script_reading::Asked;

// Plays turn after turn, while the page has room for the longest answer. Whatever changes is a local of this one loop, which calls in one place: a
// call by value copies the scheduler, and a turn that makes no call does not.
fn later(p: Play, script: &[u8], page: &mut [u8]) -> Played
    requires { InPlay script.now p × (p.stage ≡ Playing) × (page_bytes ≤ length page.old) }
    ensures { Filled (script_player script.now) p page.new result.end result.play }
{
    let last = page.len() - script_writing::page_len();
    let mut d = p.scheduler;
    let mut at = p.at;
    let mut steps = p.steps;
    let mut end: usize = 0;
    let mut points = [0u32; 131];
    let mut free = [0u32; 131];
    let mut low = [0u32; 9];
    let mut high = [0u32; 9];
    let mut count = kept_calls::begin(d, &mut points, &mut free, &mut low, &mut high);
    while end <= last {
        // quiet minutes are passed over at once: their ticks print nothing
        let mut minutes: u32 = 0;
        if 0 < steps {
            let mut until = quiet_minutes::latest(d.clock, steps);
            for i in 0..Scheduler::LIVE {
                until = quiet_minutes::quiet_of(d.jobs[i], d.settings, d.clock, until);
            }
            minutes = until - d.clock;
        }
        d.clock += minutes;
        if 0 < minutes {
            count = kept_calls::pass_over(
                d.settings.kind,
                d.clock,
                &mut points,
                &mut free,
                &mut low,
                &mut high,
                count,
            );
        }
        let next = script_turns::next_turn(script, at, steps - minutes);
        at = next.at;
        steps = next.steps;
        match next.turn {
            Some(asked) => match asked {
                Asked::Call(request) => {
                    let kind = d.settings.kind;
                    let kept = kept_calls::call(
                        d,
                        request,
                        &mut points,
                        &mut free,
                        &mut low,
                        &mut high,
                        count,
                    );
                    count = kept.count;
                    d = kept.outcome.scheduler;
                    let answer = kept.outcome.answer;
                    end = script_writing::put_answer(page, end, kind, d.clock, answer);
                    continue;
                }
                Asked::Wait(n) => {
                    let reason = calls::wait_refusal(d, n);
                    if reason.is_none() {
                        steps = n;
                        continue;
                    }
                    end = script_writing::put_refusal(page, end, reason);
                    continue;
                }
                Asked::Malformed => {
                    end = script_writing::put_refusal(page, end, Refusal::Malformed);
                    continue;
                }
            },
            None => {
                return Played {
                    end,
                    play: Play {
                        stage: Stage::Over,
                        at,
                        steps,
                        scheduler: d,
                    },
                };
            }
        }
    }
    Played {
        end,
        play: Play {
            stage: Stage::Playing,
            at,
            steps,
            scheduler: d,
        },
    }
}

// The page filled from its start: until the script is over, its first line is played, or the page no longer has room for the longest answer.
pub fn fill(p: Play, script: &[u8], page: &mut [u8]) -> Played
    requires { InPlay script.now p × (page_bytes ≤ length page.old) }
    ensures { Filled (script_player script.now) p page.new result.end result.play }
{
    match p.stage {
        Stage::First => script_turns::first(p, script, page),
        Stage::Playing => later(p, script, page),
        Stage::Over => Played { end: 0, play: p },
    }
}

// A script from its beginning; it has no scheduler before its first line, so an empty one stands there.
pub fn begin() -> Play
    ensures { result ≡ beginning }
{
    let none = Scheduler::open(Opening {
        settings: Settings::of_refused(Kind::Conservative),
        minute: 0,
        ticket: 1,
    });
    Play {
        stage: Stage::First,
        at: 0,
        steps: 0,
        scheduler: none.scheduler,
    }
}
