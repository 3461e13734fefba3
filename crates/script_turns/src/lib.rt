// One turn of a script: its first line, played into a lent page; and what comes next of the later ones, a step of a wait or a line.
#![tactic(auto)]

ghost use Rattle.std.specs.Prelude.{◌≡◌, ◌≤◌, ◌<◌, length};
ghost use Rattle.paging.specs.Players.{piece, Turned};
ghost use Rattle.scheduler.specs.Answers.{code};
ghost use Rattle.script_rules.specs.Writing.{no_row};
ghost use Rattle.script_reading.specs.Meaning.{opens};
ghost use Rattle.script_writing.specs.AnswerText.{page_bytes};
ghost use Rattle.script_play.specs.FirstPieces.{opening_piece};
ghost use Rattle.script_play.specs.Pieces.{over, starts, first_piece};
ghost use Rattle.script_turns.specs.NextTurn.{Comes};

use scheduler::{Opening, Refusal, Request, Scheduler};
use script_play::{Play, Played, Stage};
use script_reading::Asked;
use text::Begins;

// A longer script is not read.
const LONGEST: usize = 65536;

// If the first line opens nothing, prints why, and the script is over.
fn refuse(p: Play, reason: Refusal, page: &mut [u8]) -> Played
    requires { page_bytes ≤ length page.old }
    ensures { Turned page_bytes (piece (no_row (code reason)) (over p)) page.old 0 page.new result.end result.play }
{
    let end = script_writing::put_refusal(page, 0, reason);
    Played {
        end,
        play: Play {
            stage: Stage::Over,
            ..p
        },
    }
}

// What a first line asks.
fn open(p: Play, next: usize, first: Option<Opening>, page: &mut [u8]) -> Played
    requires { page_bytes ≤ length page.old }
    ensures { Turned page_bytes (opening_piece (over p) starts next (opens first)) page.old 0 page.new result.end result.play }
{
    match first {
        Some(o) => {
            let opened = Scheduler::open(o);
            if opened.refusal.is_none() {
                return Played {
                    end: 0,
                    play: Play {
                        stage: Stage::Playing,
                        at: next,
                        steps: 0,
                        scheduler: opened.scheduler,
                    },
                };
            }
            refuse(p, opened.refusal, page)
        }
        None => refuse(p, Refusal::Malformed, page),
    }
}

// The first line; a script that is too long is not read, and an empty one is over.
pub fn first(p: Play, script: &[u8], page: &mut [u8]) -> Played
    requires { page_bytes ≤ length page.old }
    ensures { Turned page_bytes (first_piece script.now p) page.old 0 page.new result.end result.play }
{
    match text::first_line(script, LONGEST) {
        Begins::Nothing => Played {
            end: 0,
            play: Play {
                stage: Stage::Over,
                ..p
            },
        },
        Begins::Malformed => refuse(p, Refusal::Malformed, page),
        Begins::Line(end) => {
            let asked = script_reading::read_first(&script[..end]);
            open(p, end + 1, asked, page)
        }
    }
}

// What is asked next, none if the script is over; where the line after it begins; and how many steps of a wait are left after it.
#[derive(Clone, Copy)]
pub struct Next {
    pub turn: Option<Asked>,
    pub at: usize,
    pub steps: u32,
}

// The line at a place. An unclosed one lacks the form.
fn next_line(script: &[u8], at: usize) -> Next
    requires { at < length script.now }
    ensures { Comes script.now at 0 result }
{
    let later = script_reading::read_later(script, at);
    let end = later.line.end;
    if later.line.closed {
        return Next {
            turn: Some(later.asked),
            at: end + 1,
            steps: 0,
        };
    }
    Next {
        turn: Some(Asked::Malformed),
        at: end,
        steps: 0,
    }
}

// A step of the wait, or the next line.
pub fn next_turn(script: &[u8], at: usize, steps: u32) -> Next
    ensures { Comes script.now at steps result }
{
    if 0 < steps {
        return Next {
            turn: Some(Asked::Call(Request::Tick)),
            at,
            steps: steps - 1,
        };
    }
    if script.len() <= at {
        return Next {
            turn: None,
            at,
            steps: 0,
        };
    }
    next_line(script, at)
}
