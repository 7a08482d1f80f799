// The words that a program was started with, and what is said of a file that one of them names.
ghost use Rattle.std.specs.Prelude.{◌≤◌, length};

use std::env::{Env, FillError};
use std::fmt::Write;
use std::io::ErrorKind;
use std::{fmt, io};

// Puts word i at the start of the room; answers its length, 0 where it is missing or longer than the room.
pub fn word<E: Env>(rt: &E, i: usize, room: &mut [u8]) -> usize
    ensures { result ≤ length room.new }
{
    rt.arg(i, room).unwrap_or(0)
}

// Whether word i was given.
pub fn is_there<E: Env>(rt: &E, i: usize) -> bool {
    !matches!(rt.arg(i, &mut []), Err(FillError::NotPresent))
}

// A file's name as std takes it.
pub fn path_of(name: &[u8]) -> io::Result<&str> {
    match str::from_utf8(name) {
        Ok(path) => Ok(path),
        Err(_) => Err(io::Error::new(ErrorKind::InvalidInput, "a file name has to be UTF-8")),
    }
}

// A buffer with its length, since the programs have fixed memory.
// The system's own words for an error, as far as they fit, without the number that std puts after them.
#[derive(Drop)]
struct Reason {
    words: [u8; 256],
    length: usize,
    is_over: bool,
    ghost within: { length ≤ 256 },
}

impl fmt::Write for Reason {
    fn write_str(&mut self, s: &str) -> fmt::Result {
        self.is_over = self.is_over || s == " (os error ";
        for byte in s.as_bytes() {
            if !self.is_over && self.length < self.words.len() {
                self.words[self.length] = *byte;
                self.length += 1;
            }
        }
        Ok(())
    }
}

fn reason_of(why: &io::Error) -> Reason {
    let mut reason = Reason {
        words: [0u8; 256],
        length: 0,
        is_over: false,
    };
    // A reason takes all that is written to it.
    let _ = write!(reason, "{why}");
    reason
}

// A line on standard error: the file's name, and why it could not be read or written.
pub fn print_failure<E: Eprint>(rt: &E, name: &[u8], why: &io::Error) {
    let reason = reason_of(why);
    let words = str::from_utf8(&reason.words[..reason.length]).unwrap_or("");
    // Where standard error is closed too, nobody is left to be told.
    let _ = match str::from_utf8(name) {
        Ok(path) => eprintln!(rt; "{path}: {words}"),
        Err(_) => eprintln!(rt; "{}: {words}", name.escape_ascii()),
    };
}
