// "per rewriting subgoal and per subgoal of its summary, one byte: question subgoal".
ghost use Rattle.std.specs.Prelude.{◌≤◌, length};
ghost use Rattle.codes.specs.Code.{uses_goals};
ghost use Rattle.book_codes.specs.FewRows.{FewRows};
ghost use Rattle.book_codes.specs.OfRows.{of_rows};
ghost use Rattle.book_codes.specs.UsesLent.{SourceUses};
ghost use Rattle.witness_check.specs.WayBack.Confirms.{BackCheckSays};
ghost use Rattle.witness_check.specs.WayBack.Places.{BytesNamed};
ghost use Rattle.witness_check.specs.WayBack.Steps.{BackAlongSays};

use book_codes::question::{question_bindings, question_target};
use book_codes::uses::BookRows;
use codes::{QUESTION_CODES, SUBGOAL_CODES, USES_CODES, USES_GOALS};
use spec::QUESTION_GOALS;
use task::Task;
use task::pass::follows;

// The places that the bytes name; none where one of them is 0: "All count from 1".
fn byte_places(witness: &[u8]) -> Option<[u16; USES_GOALS]>
    requires { length witness.now ≤ uses_goals }
    ensures { BytesNamed witness.now result }
{
    let mut ks = [0u16; USES_GOALS];
    for (i, byte) in witness.iter().enumerate() {
        ks[i] = byte.checked_sub(1)? as u16;
    }
    Some(ks)
}

// Over the codes of the uses.
fn back_along(book: &[u8], source: &[u64], widths: &[u8], lasts: &[u8], witness: &[u8]) -> bool
    requires { SourceUses book.now source.now widths.now lasts.now }
    ensures { BackAlongSays book.now source.now widths.now lasts.now witness.now result }
{
    if witness.len() != widths.len() {
        return false; // another length
    }
    let mut target = [0u64; QUESTION_CODES];
    let n = question_target(book, &mut target);
    let own = [0u8; QUESTION_GOALS];
    let b = question_bindings(book);
    let Some(ks) = byte_places(witness) else {
        return false; // a byte that names nothing
    };
    let task = Task {
        source,
        widths,
        lasts,
        target: &target[..SUBGOAL_CODES * n],
        own: &own[..n],
    };
    follows(&task, b, &ks)
}

// Whether the bytes are the second part of a witness of the rows.
pub fn comes_back(rows: &BookRows, witness: &[u8]) -> bool
    requires { of_rows FewRows rows.now }
    ensures { of_rows BackCheckSays rows.now witness.now result }
{
    let mut source = [0u64; USES_CODES];
    let mut widths = [0u8; USES_GOALS];
    let mut lasts = [0u8; USES_GOALS];
    let goals = rows.expand_back(&mut source, &mut widths, &mut lasts);
    back_along(
        rows.book,
        &source[..SUBGOAL_CODES * goals],
        &widths[..goals],
        &lasts[..goals],
        witness,
    )
}
