// Says of books whether they are sound, a line for each: `sound`, or `refused N at P`.
//
//     sound            standard input is a book
//     sound many       standard input is many books, each after its length (4 bytes, little-endian)
//     sound repeat     standard input is a book, read 10,000 times for timing: how often it was sound
#![tactic(auto)]

ghost use Rattle.std.specs.Prelude.{◌≤◌};

use books::read_book;
use console::input::{BOOK_ROOM, each, fill, next_book, one_book};
use std::io;
use std::io::{Read, Write};

// The first byte of the need: the stamp of entry 1.
const NEED: usize = 22;

// How often `repeat` reads its book.
const TIMES: u32 = 10000;

fn print_reading<W: Write>(out: &mut W, book: &[u8]) -> io::Result<()> {
    match read_book(book) {
        Ok(()) => out.write_all(b"sound\n"),
        Err(refused) => console::print_refusal(out, refused.into()),
    }
}

// Reads the book once more: 1 if it is sound, else 0. Each time another need stands in it, on which
// the answer does not depend, so that no compiler can take all the readings for one.
fn read_again(book: &mut [u8], need: u32) -> u32
    ensures { result ≤ 1 }
{
    if book.len() <= NEED {
        return 0;
    }
    book[NEED] = (need % 256) as u8;
    u32::from(read_book(book).is_ok())
}

fn read_repeatedly(book: &mut [u8]) -> u32 {
    let mut sound: u32 = 0;
    for turn in 0..TIMES {
        sound += read_again(book, TIMES - turn);
    }
    sound
}

fn repeated<R: Read, W: Write>(input: &mut R, out: &mut W) -> io::Result<()> {
    let mut book = [0u8; BOOK_ROOM];
    let n = fill(input, &mut book, u64::MAX)?;
    let sound = read_repeatedly(&mut book[..n]);
    writeln!(out, "{sound}")
}

fn main(rt: HostRuntime) -> io::Result<()> {
    let mut word = [0u8; 8];
    let n = console::words::word(&rt, 1, &mut word);
    let mut input = rt.reader();
    let mut out = io::writer(&rt);
    match &word[..n] {
        b"many" => each(|| next_book(&mut input, &mut out, |out, book| print_reading(out, book)))?,
        b"repeat" => repeated(&mut input, &mut out)?,
        _ => one_book(&mut input, |book| print_reading(&mut out, book))?,
    }
    out.flush()
}
