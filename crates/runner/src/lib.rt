// What programs do with texts that are played: a text is read whole from a reader or a file, played, and its printout is written.
#![tactic(auto)]

use std::env::Env;
use std::io;
use std::io::{Read, Write};
use std::rt::Files;

// A kind of text that is played.
pub trait Player {
    // How the program and the text are called where something fails.
    const PROGRAM: &'static str;

    const TEXT: &'static str;

    // Plays all of a text. If its lines cannot be written, the rest is not played.
    fn play<W: Write>(text: &[u8], to: &mut W) -> io::Result<()>;
}

// Reads a text whole from a reader and writes its printout to a writer. The space has room for one byte more than the longest text, so that a longer
// one is noticed. If either fails, a line on standard error says so; a text that cannot be read is not played.
pub fn run<P: Player, T: Eprint, R: Read, W: Write>(
    rt: &T,
    from: &mut R,
    to: &mut W,
    space: &mut [u8],
) {
    let input = inputs::read_whole(from, space);
    if let Some(e) = input.failed {
        let _ = eprintln!(rt; "{}: the {} cannot be read: {e}", P::PROGRAM, P::TEXT);
        return;
    }
    if let Err(e) = P::play(&space[..input.len], to) {
        let _ = eprintln!(rt; "{}: the printout cannot be written: {e}", P::PROGRAM);
    }
}

// The text of a file that an argument names: the name, then its printout.
fn run_file<P: Player, T: Env + Files + Print + Eprint>(rt: &T, argument: usize, space: &mut [u8]) {
    if let Some(file) = inputs::open_named(rt, argument) {
        let mut from = file;
        run::<P, _, _, _>(rt, &mut from, &mut io::writer(rt), space);
    }
}

// Every file that the arguments name, in their order.
pub fn run_files<P: Player, T: Env + Files + Print + Eprint>(rt: &T, space: &mut [u8]) {
    for i in 1..usize::MAX {
        if !inputs::is_given(rt, i) {
            return;
        }
        run_file::<P, _>(rt, i, space);
    }
}
