// Scripts from files and readers: a script is read whole, played page after page, and each page is written out.
#![tactic(auto)]

ghost use Rattle.std.specs.Prelude.{◌≤◌, length};
ghost use Rattle.script_writing.specs.AnswerText.{page_bytes};

use runner::Player;
use std::env::Env;
use std::io;
use std::io::{Read, Write};
use std::rt::Files;

// Plays all of a script. The lines of many calls go out together; if they cannot be written, the rest is not played.
// Kept: one loop for both is no plainer. It would be over a trait with a premise and a measure, and a season lends two lists with the page.
fn play<W: Write>(script: &[u8], to: &mut W, page: &mut [u8]) -> io::Result<()>
    requires { page_bytes ≤ length page.old }
{
    let mut p = script::begin();
    loop {
        if !p.stage.goes_on() {
            return Ok(());
        }
        let t = script::fill(p, script, page);
        to.write_all(&page[..t.end])?;
        p = t.play;
    }
}

// Day sheets, as they are run.
struct Sheet;

impl Player for Sheet {
    const PROGRAM: &'static str = "sheet";

    const TEXT: &'static str = "day sheet";

    fn play<W: Write>(text: &[u8], to: &mut W) -> io::Result<()> {
        // Room for many lines, and short enough to stay in the nearest cache.
        let mut page = [0u8; 16384];
        play(text, to, &mut page)
    }
}

// A byte more than the longest script.
const ROOM: usize = 65537;

// Reads a script from a reader and writes its printout to a writer.
pub fn run<T: Eprint, R: Read, W: Write>(rt: &T, from: &mut R, to: &mut W) {
    let mut space = [0u8; ROOM];
    runner::run::<Sheet, _, _, _>(rt, from, to, &mut space);
}

// Every file that the arguments name, in their order: its name, then its printout.
pub fn run_files<T: Env + Files + Print + Eprint>(rt: &T) {
    let mut space = [0u8; ROOM];
    runner::run_files::<Sheet, _>(rt, &mut space);
}
