// A season played into a lent page, page after page. A turn is an end, an arrival, a line that is refused, or a minute. Its lines stand in the page
// after those of the turns before. What is noted of the jobs, by ticket, stands in two lists that are lent with the page.
#![tactic(auto)]

ghost use Rattle.std.specs.Prelude.{◌≡◌, List, ℕ, ◌≤◌, length};
ghost use Rattle.scheduler.specs.Answers.{code};
ghost use Rattle.paging.specs.Players.{piece, Turned};
ghost use Rattle.paging.specs.PageFilling.{Filled};
ghost use Rattle.script_rules.specs.Writing.{no_row};
ghost use Rattle.script_reading.specs.Meaning.{opens};
ghost use Rattle.script_writing.specs.AnswerText.{page_bytes};
ghost use Rattle.script_play.specs.declared.Stage.TheVariants.{Playing};
ghost use Rattle.script_play.specs.FirstPieces.{opening_piece};
ghost use Rattle.season_play.specs.Places.{place, InPlay, closed};
ghost use Rattle.season_play.specs.SeasonPlayer.{starts, first_piece, season_player, beginning};

use scheduler::{
    Departure, Kind, Opening, Refusal, Request, Scheduler, Settings, Submission, Tenant,
};
use script_play::Stage;
use season_play::Standing;
use season_turns::Coming;
use text::Begins;

// A longer list is not read.
const LONGEST: usize = 262144;

// Where the lines end in the page, and where the season stands then.
#[derive(Clone, Copy)]
pub struct Played {
    pub end: usize,
    pub standing: Standing,
}

// Plays turn after turn, while the page has room for the longest one. Whatever changes is a local of this one loop.
fn later(
    p: Standing,
    list: &[u8],
    page: &mut [u8],
    arrivals: &mut [u32; 4096],
    actuals: &mut [u32; 4096],
) -> Played
    requires { InPlay list.now (place p arrivals.old actuals.old) × (p.stage ≡ Playing) × (page_bytes ≤ length page.old) }
    ensures { Filled (season_player list.now) (place p arrivals.old actuals.old)
        page.new result.end (place result.standing arrivals.new actuals.new) }
{
    let last = page.len() - script_writing::page_len();
    let mut d = p.scheduler;
    let mut at = p.at;
    let mut above = p.above;
    let mut highest = p.highest;
    let mut end: usize = 0;
    let mut points = [0u32; 131];
    let mut free = [0u32; 131];
    let mut low = [0u32; 9];
    let mut high = [0u32; 9];
    let mut count = kept_calls::begin(d, &mut points, &mut free, &mut low, &mut high);
    let mut ahead = season_reading::read_ahead(list, at, above);
    while end <= last {
        let ending = season_turns::ending_slot(d, actuals);
        let listed = ahead.listed;
        let j = d.jobs[0];
        let coming = season_turns::next_turn(ending, listed, highest, d.clock, j.is_live());
        match coming {
            Coming::Ends(slot) => {
                let over = d.jobs[slot];
                let arrival = season_writing::at_ticket(arrivals, over.ticket);
                let actual = season_writing::at_ticket(actuals, over.ticket);
                end = season_writing::put_ended(page, end, over, d.settings, arrival, actual);
                let kept = kept_calls::call(
                    d,
                    Request::Depart(Departure::Complete, over.ticket),
                    &mut points,
                    &mut free,
                    &mut low,
                    &mut high,
                    count,
                );
                count = kept.count;
                d = kept.outcome.scheduler;
                continue;
            }
            Coming::Refuses(reason) => {
                end = script_writing::put_refusal(page, end, reason);
                highest = season_turns::highest_with(highest, listed);
                at = ahead.next;
                above = season_reading::one_more(above);
                ahead = season_reading::read_ahead(list, at, above);
                continue;
            }
            Coming::Arrives(a) => {
                let kept = kept_calls::call(
                    d,
                    Request::Submit(Submission {
                        nodes: a.nodes,
                        estimate: a.estimate,
                        tenant: Tenant::A,
                        least: 0,
                    }),
                    &mut points,
                    &mut free,
                    &mut low,
                    &mut high,
                    count,
                );
                count = kept.count;
                d = kept.outcome.scheduler;
                let answer = kept.outcome.answer;
                let reason = answer.refusal;
                highest = season_turns::highest_with(highest, listed);
                at = ahead.next;
                above = season_reading::one_more(above);
                ahead = season_reading::read_ahead(list, at, above);
                if reason.is_none() {
                    season_turns::note(arrivals, answer.ticket, a.minute);
                    season_turns::note(actuals, answer.ticket, a.actual);
                    continue;
                }
                end = script_writing::put_refusal(page, end, reason);
                continue;
            }
            Coming::Steps(minute) => {
                let until = season_turns::quiet_until(d, actuals, minute);
                if d.clock < until {
                    // minutes in which nothing happens are passed over at once
                    d.clock = until;
                    count = kept_calls::pass_over(
                        d.settings.kind,
                        d.clock,
                        &mut points,
                        &mut free,
                        &mut low,
                        &mut high,
                        count,
                    );
                    continue;
                }
                end = season_turns::put_due(page, end, d, arrivals, actuals);
                let kept = kept_calls::call(
                    d,
                    Request::Tick,
                    &mut points,
                    &mut free,
                    &mut low,
                    &mut high,
                    count,
                );
                count = kept.count;
                d = kept.outcome.scheduler;
                continue;
            }
            Coming::Over => {
                return Played {
                    end,
                    standing: Standing {
                        stage: Stage::Over,
                        at,
                        above,
                        highest,
                        scheduler: d,
                    },
                };
            }
        }
    }
    Played {
        end,
        standing: Standing {
            stage: Stage::Playing,
            at,
            above,
            highest,
            scheduler: d,
        },
    }
}

// If the first line opens nothing, prints why, and the season is over.
fn refuse(p: Standing, reason: Refusal, page: &mut [u8]) -> Played
    requires { page_bytes ≤ length page.old }
    ensures { (xs ys : List ℕ) → Turned page_bytes (piece (no_row (code reason)) (closed (place p xs ys)))
        page.old 0 page.new result.end (place result.standing xs ys) }
{
    let end = script_writing::put_refusal(page, 0, reason);
    Played {
        end,
        standing: Standing {
            stage: Stage::Over,
            ..p
        },
    }
}

// What a first line asks.
fn open(p: Standing, next: usize, first: Option<Opening>, page: &mut [u8]) -> Played
    requires { page_bytes ≤ length page.old }
    ensures { (xs ys : List ℕ) → Turned page_bytes (opening_piece (closed (place p xs ys)) (starts (place p xs ys)) next (opens first))
        page.old 0 page.new result.end (place result.standing xs ys) }
{
    match first {
        Some(o) => {
            let opened = Scheduler::open(o);
            let reason = opened.refusal;
            if reason.is_none() {
                return Played {
                    end: 0,
                    standing: Standing {
                        stage: Stage::Playing,
                        at: next,
                        above: 0,
                        highest: 0,
                        scheduler: opened.scheduler,
                    },
                };
            }
            refuse(p, reason, page)
        }
        None => refuse(p, Refusal::Malformed, page),
    }
}

// The first line; a list that is too long is not read, and an empty one is over.
fn first(p: Standing, list: &[u8], page: &mut [u8]) -> Played
    requires { page_bytes ≤ length page.old }
    ensures { (xs ys : List ℕ) → Turned page_bytes (first_piece list.now (place p xs ys))
        page.old 0 page.new result.end (place result.standing xs ys) }
{
    let begins = text::first_line(list, LONGEST);
    match begins {
        Begins::Nothing => Played {
            end: 0,
            standing: Standing {
                stage: Stage::Over,
                ..p
            },
        },
        Begins::Malformed => refuse(p, Refusal::Malformed, page),
        Begins::Line(end) => {
            let asked = season_reading::read_settings(&list[..end]);
            open(p, end + 1, asked, page)
        }
    }
}

// The page filled from its start: until the season is over, its first line is played, or the page no longer has room for the longest turn.
pub fn fill(
    p: Standing,
    list: &[u8],
    page: &mut [u8],
    arrivals: &mut [u32; 4096],
    actuals: &mut [u32; 4096],
) -> Played
    requires { InPlay list.now (place p arrivals.old actuals.old) × (page_bytes ≤ length page.old) }
    ensures { Filled (season_player list.now) (place p arrivals.old actuals.old)
        page.new result.end (place result.standing arrivals.new actuals.new) }
{
    match p.stage {
        Stage::First => first(p, list, page),
        Stage::Playing => later(p, list, page, arrivals, actuals),
        Stage::Over => Played {
            end: 0,
            standing: p,
        },
    }
}

// A season from its beginning; it has no scheduler before its first line, so an empty one stands there.
pub fn begin() -> Standing
    ensures { result ≡ beginning }
{
    let none = Scheduler::open(Opening {
        settings: Settings::of_refused(Kind::Conservative),
        minute: 0,
        ticket: 1,
    });
    Standing {
        stage: Stage::First,
        at: 0,
        above: 0,
        highest: 0,
        scheduler: none.scheduler,
    }
}
