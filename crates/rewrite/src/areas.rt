// What the rewriter left in its two areas. Of each book five calls, with areas of 600 and 150 bytes,
// of 534 and 120 (just enough), of 533 and 120, of 534 and 119, of 533 and 119 (too short); of each
// call a line of four numbers (the refusal's number and place, 0 and 0 where there is none; the lengths
// of answer and witness, 0 and 0 on a refusal), and then all bytes of both areas as they are.
ghost use Rattle.std.specs.Prelude.{◌≤◌};

use rewriter::rewrite;
use spec::{ANSWER_ROOM, Lengths, Reason, Refused, WITNESS_ROOM};
use std::io;
use std::io::Write;

// What an area holds before: bytes that go through all values, from `first` on.
fn pattern(area: &mut [u8], first: u8) {
    let mut byte = first;
    for place in area.iter_mut() {
        *place = byte;
        byte = byte.wrapping_add(7);
    }
}

fn print_told<W: Write>(out: &mut W, outcome: Result<Lengths, Refused>) -> io::Result<()> {
    match outcome {
        Ok(long) => console::print_four(out, 0, 0, long.answer as u64, long.witness as u64),
        Err(refused) => {
            let reason = Reason::from(refused);
            console::print_four(out, u64::from(reason.number), reason.place as u64, 0, 0)
        }
    }
}

fn print_left<W: Write>(
    out: &mut W,
    book: &[u8],
    answer: &mut [u8],
    witness: &mut [u8],
) -> io::Result<()> {
    print_told(out, rewrite(book, answer, witness))?;
    out.write_all(answer)?;
    out.write_all(witness)
}

// One call, with areas of n and m bytes.
fn print_with<W: Write>(out: &mut W, book: &[u8], n: usize, m: usize) -> io::Result<()>
    requires { (n ≤ 600) × (m ≤ 150) }
{
    let mut answer = [0u8; 600];
    let mut witness = [0u8; 150];
    pattern(&mut answer, 3);
    pattern(&mut witness, 100);
    print_left(out, book, &mut answer[..n], &mut witness[..m])
}

pub(crate) fn print_areas<W: Write>(out: &mut W, book: &[u8]) -> io::Result<()> {
    print_with(out, book, 600, 150)?;
    print_with(out, book, ANSWER_ROOM, WITNESS_ROOM)?;
    print_with(out, book, ANSWER_ROOM - 1, WITNESS_ROOM)?;
    print_with(out, book, ANSWER_ROOM, WITNESS_ROOM - 1)?;
    print_with(out, book, ANSWER_ROOM - 1, WITNESS_ROOM - 1)
}
