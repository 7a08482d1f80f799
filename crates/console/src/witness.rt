// The two parts of a witness, a line each.
ghost use Rattle.std.specs.Prelude.{◌≤◌};

use crate::bytes::byte_at;
use crate::text::{end_line, print_after, print_spaced, print_text};
use std::io;
use std::io::Write;

fn print_place<W: Write>(out: &mut W, place: u8) -> io::Result<()> {
    print_spaced(out, place as u64)
}

// Of the question's subgoal i: the rewriting's subgoal that it is sent to, and the subgoal within that summary.
fn print_pair<W: Write>(out: &mut W, witness: &[u8], i: usize) -> io::Result<()>
    requires { i ≤ 255 }
{
    print_place(out, byte_at(witness, 2 * i))?;
    print_after(out, ".", byte_at(witness, 2 * i + 1) as u64)
}

// The witness's first part: two bytes for each of the question's subgoals.
pub(crate) fn print_there<W: Write>(out: &mut W, witness: &[u8], subgoals: usize) -> io::Result<()>
    requires { subgoals ≤ 255 }
{
    print_text(out, "there")?;
    for i in 0..subgoals {
        print_pair(out, witness, i)?;
    }
    end_line(out)
}

// Its second part: the bytes from `from` on, each a subgoal of the question.
pub(crate) fn print_back<W: Write>(out: &mut W, witness: &[u8], from: usize) -> io::Result<()> {
    print_text(out, "back")?;
    for place in witness.iter().skip(from) {
        print_place(out, *place)?;
    }
    end_line(out)
}
