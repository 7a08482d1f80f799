// Rewrites the questions of books over their summaries. Of each book it prints the listing of its
// rewriting, or one line, `refused N at P`.
//
//     rewrite                          standard input is a book
//     rewrite many                     standard input is many books, each after its length (4 bytes, little-endian)
//     rewrite store ANSWER WITNESS     standard input is a book; its answer and its witness are also written to these files
//     rewrite areas                    many books: what is left in the two lent areas (areas.rt)
//     rewrite repeat                   many books, each several times, for timing (repeat.rt)
#![tactic(auto)]

mod areas; // what was left in the two lent areas
mod outcome; // the listing or the refusal; answer and witness as files
mod repeat; // the same book several times

use crate::areas::print_areas;
use crate::outcome::{print_outcome, store_outcome};
use crate::repeat::print_last;
use console::input::{each, next_book, one_book, size};
use std::io;
use std::io::{Read, Write};

// The next of many books, rewritten as often as stands before it; answers whether there was one.
fn next_repeated<R: Read, W: Write>(input: &mut R, out: &mut W) -> io::Result<bool> {
    let Some(times) = size(input)? else {
        return Ok(false);
    };
    next_book(
        input,
        out,
        |out, book| print_last(out, book, u64::from(times)),
    )
}

fn main(rt: HostRuntime) -> io::Result<()> {
    let mut word = [0u8; 8];
    let n = console::words::word(&rt, 1, &mut word);
    let mut input = rt.reader();
    let mut out = io::writer(&rt);
    match &word[..n] {
        b"many" => each(|| next_book(&mut input, &mut out, |out, book| print_outcome(out, book)))?,
        b"areas" => each(|| next_book(&mut input, &mut out, |out, book| print_areas(out, book)))?,
        b"repeat" => each(|| next_repeated(&mut input, &mut out))?,
        b"store" => one_book(&mut input, |book| store_outcome(&rt, &mut out, book))?,
        _ => one_book(&mut input, |book| print_outcome(&mut out, book))?,
    }
    out.flush()
}
