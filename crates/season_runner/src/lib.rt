// Seasons from files and readers: a list is read whole, played page after page, and each page is written out.
#![tactic(auto)]

ghost use Rattle.std.specs.Prelude.{◌≤◌, length};
ghost use Rattle.script_writing.specs.AnswerText.{page_bytes};

use runner::Player;
use std::env::Env;
use std::io;
use std::io::{Read, Write};
use std::rt::Files;

// Plays all of a season. The lines of many turns go out together; if they cannot be written, the rest is not played.
// Kept: one loop for both is no plainer. It would be over a trait with a premise and a measure, and a season lends two lists with the page.
fn play<W: Write>(list: &[u8], to: &mut W, page: &mut [u8]) -> io::Result<()>
    requires { page_bytes ≤ length page.old }
{
    let mut arrivals = [0u32; 4096];
    let mut actuals = [0u32; 4096];
    let mut p = season_filling::begin();
    loop {
        if !p.stage.goes_on() {
            return Ok(());
        }
        let t = season_filling::fill(p, list, page, &mut arrivals, &mut actuals);
        to.write_all(&page[..t.end])?;
        p = t.standing;
    }
}

// Seasons, as they are run.
struct Season;

impl Player for Season {
    const PROGRAM: &'static str = "season";

    const TEXT: &'static str = "list";

    fn play<W: Write>(text: &[u8], to: &mut W) -> io::Result<()> {
        // Room for many lines, and short enough to stay in the nearest cache.
        let mut page = [0u8; 16384];
        play(text, to, &mut page)
    }
}

// A byte more than the longest list.
const ROOM: usize = 262145;

// Reads a list from a reader and writes its printout to a writer.
pub fn run<T: Eprint, R: Read, W: Write>(rt: &T, from: &mut R, to: &mut W) {
    let mut space = [0u8; ROOM];
    runner::run::<Season, _, _, _>(rt, from, to, &mut space);
}

// Every file that the arguments name, in their order: its name, then its printout.
pub fn run_files<T: Env + Files + Print + Eprint>(rt: &T) {
    let mut space = [0u8; ROOM];
    runner::run_files::<Season, _>(rt, &mut space);
}
