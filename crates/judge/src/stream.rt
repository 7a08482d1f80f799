// Many triples on standard input: before each stand the three lengths of its book, its rewriting and
// its witness, four bytes each, little-endian, and then the three. For timing, a number of four bytes
// before them says how often it is checked; a line is written as soon as it is known.
ghost use Rattle.std.specs.Prelude.{◌≡◌, ◌≤◌, length};
ghost use Rattle.std.specs.Io.{ReadsAtMost};

use crate::rooms::{BOOK, REWRITING, WITNESS, print_answer};
use console::input::{fill, pass, size};
use std::io;
use std::io::{Read, Write};

// Reads a part of a triple, as far as the room goes, and passes over the rest; answers how many bytes
// stand in the room.
fn take<R: Read>(input: &mut R, room: &mut [u8], size: u64) -> io::Result<usize>
    ensures { ReadsAtMost result room.new }
{
    let n = fill(input, room, size)?;
    pass(input, size - n as u64)?;
    Ok(n)
}

// Checks once more. Each time another byte stands where only a book that is too long reaches, so that
// no compiler can take all the checks for one; and no answer depends on it.
fn check_again(book: &mut [u8], n: usize, rewriting: &[u8], witness: &[u8], turn: u64) -> bool
    requires { (length book.old ≡ 25041) × (n ≤ 25041) }
{
    book[BOOK - 1] = (turn % 256) as u8;
    checker::check(&book[..n], rewriting, witness)
}

fn check_times(book: &mut [u8], n: usize, rewriting: &[u8], witness: &[u8], times: u64) -> bool
    requires { (length book.old ≡ 25041) × (n ≤ 25041) }
{
    let mut last = check_again(book, n, rewriting, witness, 0);
    for turn in 1..times {
        last = check_again(book, n, rewriting, witness, turn);
    }
    last
}

// How long the three parts of a triple are.
#[derive(Clone, Copy)]
struct Sizes {
    book: u64,
    rewriting: u64,
    witness: u64,
}

// What stands before the next triple, or none where the input ends.
fn next_sizes<R: Read>(input: &mut R) -> io::Result<Option<Sizes>> {
    let (Some(book), Some(rewriting), Some(witness)) = (size(input)?, size(input)?, size(input)?)
    else {
        return Ok(None);
    };
    Ok(Some(Sizes {
        book: u64::from(book),
        rewriting: u64::from(rewriting),
        witness: u64::from(witness),
    }))
}

// The next triple, checked so many times; answers whether there was one.
pub(crate) fn judge_next<R: Read, W: Write>(
    input: &mut R,
    out: &mut W,
    times: u32,
) -> io::Result<bool> {
    let Some(sizes) = next_sizes(input)? else {
        return Ok(false);
    };
    let mut book = [0u8; BOOK];
    let mut rewriting = [0u8; REWRITING];
    let mut witness = [0u8; WITNESS];
    let n = take(input, &mut book, sizes.book)?;
    let k = take(input, &mut rewriting, sizes.rewriting)?;
    let m = take(input, &mut witness, sizes.witness)?;
    let is_right = check_times(
        &mut book,
        n,
        &rewriting[..k],
        &witness[..m],
        u64::from(times),
    );
    print_answer(out, is_right)?;
    out.flush()?;
    Ok(true)
}

// The next triple, checked as often as stands before it; answers whether there was one.
pub(crate) fn judge_repeated<R: Read, W: Write>(input: &mut R, out: &mut W) -> io::Result<bool> {
    let Some(times) = size(input)? else {
        return Ok(false);
    };
    judge_next(input, out, times)
}
