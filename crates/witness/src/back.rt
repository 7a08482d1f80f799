// "per rewriting subgoal and per subgoal of its summary, one byte: question subgoal".
ghost use Rattle.std.specs.Prelude.{◌+◌, ◌≤◌, length};
ghost use Rattle.codes.specs.Code.{uses_goals};
ghost use Rattle.book_codes.specs.OfRows.{of_rows};
ghost use Rattle.witness.specs.ThereTold.{WitnessNeeds};
ghost use Rattle.witness.specs.BackTold.{BackSays};
ghost use Rattle.witness.specs.BackSteps.{BackNeeds, BackFromSays};

use crate::bytes::put_places;
use book_codes::question::{question_bindings, question_target};
use book_codes::uses::BookRows;
use codes::{QUESTION_CODES, SUBGOAL_CODES, USES_CODES, USES_GOALS};
use placing::first_places;
use spec::QUESTION_GOALS;
use task::Task;

// The uses' subgoals placed on the question's, from `at` on.
fn back_from(
    book: &[u8],
    source: &[u64],
    widths: &[u8],
    lasts: &[u8],
    out: &mut [u8],
    at: usize,
) -> usize
    requires { BackNeeds book.now source.now widths.now lasts.now × (at + uses_goals ≤ length out.old) }
    ensures { BackFromSays book.now source.now widths.now lasts.now at out.old out.new result }
{
    let mut target = [0u64; QUESTION_CODES];
    let n = question_target(book, &mut target);
    let own = [0u8; QUESTION_GOALS];
    let b = question_bindings(book);
    let task = Task {
        source,
        widths,
        lasts,
        target: &target[..SUBGOAL_CODES * n],
        own: &own[..n],
    };
    // The rows are equivalent to the question, so there is a way.
    let places = first_places(&task, b).unwrap();
    let goals = widths.len();
    put_places(out, at, &places, goals);
    goals
}

// The second part of the witness of rows that are equivalent to the question, from `at` on. Returns its length.
pub fn put_back(rows: &BookRows, out: &mut [u8], at: usize) -> usize
    requires { of_rows WitnessNeeds rows.now × (at + uses_goals ≤ length out.old) }
    ensures { of_rows BackSays rows.now at out.old out.new result }
{
    let mut source = [0u64; USES_CODES];
    let mut widths = [0u8; USES_GOALS];
    let mut lasts = [0u8; USES_GOALS];
    let goals = rows.expand_back(&mut source, &mut widths, &mut lasts);
    back_from(
        rows.book,
        &source[..SUBGOAL_CODES * goals],
        &widths[..goals],
        &lasts[..goals],
        out,
        at,
    )
}
