// The first part of the witness: the first mapping from the question to the rewriting's expansion, written as bytes,
// "per question subgoal, two bytes: rewriting subgoal and subgoal within that summary".
ghost use Rattle.std.specs.Prelude.{◌*◌, ◌≤◌, length};
ghost use Rattle.spec.specs.BookLayout.{question_most};
ghost use Rattle.book_codes.specs.OfRows.{of_rows};
ghost use Rattle.witness.specs.ThereTold.{WitnessNeeds, ThereSays};
ghost use Rattle.witness.specs.ThereSteps.{ThereNeeds, ThereOntoSays};

use crate::bytes::put_pairs;
use book_codes::question::{question_bindings, question_source};
use book_codes::uses::BookRows;
use codes::{QUESTION_CODES, SUBGOAL_CODES, USES_CODES, USES_GOALS};
use placing::first_places;
use spec::QUESTION_GOALS;
use task::Task;

// The question's subgoals placed on the uses' subgoals.
fn there_onto(book: &[u8], target: &[u64], own: &[u8], inner: &[u8], out: &mut [u8]) -> usize
    requires { ThereNeeds book.now target.now own.now inner.now × (2 * question_most ≤ length out.old) }
    ensures { ThereOntoSays book.now target.now own.now inner.now out.old out.new result }
{
    let mut source = [0u64; QUESTION_CODES];
    let mut widths = [0u8; QUESTION_GOALS];
    let n = question_source(book, &mut source, &mut widths);
    let lasts = [0u8; QUESTION_GOALS];
    let b = question_bindings(book);
    let task = Task {
        source: &source[..SUBGOAL_CODES * n],
        widths: &widths[..n],
        lasts: &lasts[..n],
        target,
        own,
    };
    // The rows are equivalent to the question, so there is a way.
    let places = first_places(&task, b).unwrap();
    put_pairs(out, &places, own, inner, n);
    2 * n
}

// The first part of the witness of rows that are equivalent to the question. Returns its length.
pub fn put_there(rows: &BookRows, out: &mut [u8]) -> usize
    requires { of_rows WitnessNeeds rows.now × (2 * question_most ≤ length out.old) }
    ensures { of_rows ThereSays rows.now out.old out.new result }
{
    let mut target = [0u64; USES_CODES];
    let mut own = [0u8; USES_GOALS];
    let mut inner = [0u8; USES_GOALS];
    let goals = rows.expand(&mut target, &mut own, &mut inner);
    there_onto(
        rows.book,
        &target[..SUBGOAL_CODES * goals],
        &own[..goals],
        &inner[..goals],
        out,
    )
}
