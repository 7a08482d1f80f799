// What the programs print: listings, refusals and numbers; and what they read.
#![tactic(auto)]

ghost use Rattle.std.specs.Prelude.{OnOk};
ghost use Rattle.std.specs.Io.KnownBytes.{Appends};
ghost use Rattle.console.specs.Lines.{refusal_line, lengths_line, four_line};

mod bytes; // bytes and numbers out of a slice, whatever its length
pub mod input; // books one after the other
mod leads; // the need, and each summary's lead
mod rewriting; // the subgoals of the answer
mod text; // texts and numbers
mod witness; // its two parts
pub mod words; // the words that a program was started with

use crate::bytes::count_at;
use crate::leads::print_leads;
use crate::rewriting::print_rewriting;
use crate::witness::{print_back, print_there};
use contents::entry;
use spec::{Lengths, Reason};
use std::io;
use std::io::Write;

// The line of a refusal. (Here and below one `writeln!`, whose bytes the promise names; an `impl Display` would have to promise them a second time.)
pub fn print_refusal<W: Write>(out: &mut W, reason: Reason) -> io::Result<()>
    ensures { OnOk result (Appends (W.contents out.old) (W.contents out.new) (refusal_line reason.number reason.place)) }
{
    let Reason { number, place } = reason;
    writeln!(out, "refused {number} at {place}")
}

// The listing of a book's rewriting, read back from the bytes of answer and witness.
pub fn print_listing<W: Write>(
    out: &mut W,
    book: &[u8],
    answer: &[u8],
    witness: &[u8],
) -> io::Result<()> {
    print_leads(out, book)?;
    print_rewriting(out, book, answer)?;
    let subgoals = count_at(entry(book, 1), 1);
    print_there(out, witness, subgoals)?;
    print_back(out, witness, 2 * subgoals)
}

// The line that tells the lengths of answer and witness.
pub fn print_lengths<W: Write>(out: &mut W, long: Lengths) -> io::Result<()>
    ensures { OnOk result (Appends (W.contents out.old) (W.contents out.new) (lengths_line long.answer long.witness)) }
{
    let Lengths { answer, witness } = long;
    writeln!(out, "done {answer} {witness}")
}

// A line of four numbers.
pub fn print_four<W: Write>(out: &mut W, a: u64, b: u64, c: u64, d: u64) -> io::Result<()>
    ensures { OnOk result (Appends (W.contents out.old) (W.contents out.new) (four_line a b c d)) }
{
    writeln!(out, "{a} {b} {c} {d}")
}
