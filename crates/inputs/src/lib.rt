// What a program is given to read: a whole input, read into a buffer that is lent, and the files that its arguments name.
#![tactic(auto)]

ghost use Rattle.std.specs.Prelude.{◌≤◌, length};
ghost use Rattle.io.specs.Counts.{IsPrefixLen};

use std::env::{Env, FillError};
use std::io::Read;
use std::rt::Files;
use std::{fs, io};

// How many bytes were read, and the error with which a read failed.
// Kept: the clause of `read_whole` speaks of the count after a failed read too, and a `Result` would lose it there.
#[derive(Clone, Copy)]
pub struct Input {
    pub len: usize,
    pub failed: Option<io::Error>,
}

// One read: no bytes at the end of the input.
fn read_some<R: Read>(from: &mut R, part: &mut [u8]) -> Input
    ensures { result.len ≤ length part.old }
{
    match from.read(part) {
        Ok(len) => Input { len, failed: None },
        Err(e) => Input {
            len: 0,
            failed: Some(e),
        },
    }
}

// Reads until the buffer is full, the input ends or a read fails.
pub fn read_whole<R: Read>(from: &mut R, space: &mut [u8]) -> Input
    ensures { IsPrefixLen result.len space.new }
{
    let mut done: usize = 0;
    while done < space.len() {
        let more = read_some(from, &mut space[done..]);
        if more.len == 0 {
            return Input {
                len: done,
                failed: more.failed,
            };
        }
        done += more.len;
    }
    Input {
        len: done,
        failed: None,
    }
}

// Whether the program was given so many arguments, its own name not counted.
pub fn is_given<R: Env>(rt: &R, argument: usize) -> bool {
    let mut path = [0u8; 4096];
    !matches!(rt.arg(argument, &mut path), Err(FillError::NotPresent))
}

// Opens the file that an argument names.
fn open<R: Files>(rt: &R, path: &[u8]) -> io::Result<R::File> {
    match str::from_utf8(path) {
        Ok(text) => fs::open(rt, text),
        Err(_) => Err(io::Error::from(io::ErrorKind::InvalidInput)),
    }
}

// Opens the file that an argument names, and writes its name on a line of standard output. If it cannot be opened, its name goes to standard error
// and there is no file.
pub fn open_named<R: Env + Files + Print + Eprint>(rt: &R, argument: usize) -> Option<R::File> {
    let mut path = [0u8; 4096];
    let n = rt.arg(argument, &mut path).unwrap_or(0);
    let name = &path[..n];
    match open(rt, name) {
        Ok(file) => {
            let _ = rt.write_all(name);
            let _ = rt.write_all(b"\n");
            Some(file)
        }
        Err(e) => {
            let text = str::from_utf8(name).unwrap_or("");
            let _ = eprintln!(rt; "{text}: {e}");
            None
        }
    }
}
