// Whether bytes are the first part of a witness, a containment mapping from the question to the rewriting's expansion,
// "per question subgoal, two bytes: rewriting subgoal and subgoal within that summary".
ghost use Rattle.std.specs.Prelude.{◌*◌, ◌<◌, ◌≤◌, length};
ghost use Rattle.spec.specs.BookLayout.{question_most};
ghost use Rattle.book_codes.specs.FewRows.{FewRows};
ghost use Rattle.book_codes.specs.OfRows.{of_rows};
ghost use Rattle.witness_check.specs.WayThere.Confirms.{ThereCheckSays};
ghost use Rattle.witness_check.specs.WayThere.Places.{PlaceOf, PairsNamed};
ghost use Rattle.witness_check.specs.WayThere.Steps.{ThereAlongNeeds, ThereAlongSays};

use book_codes::question::{question_bindings, question_source};
use book_codes::uses::BookRows;
use codes::{QUESTION_CODES, SUBGOAL_CODES, USES_CODES, USES_GOALS};
use spec::QUESTION_GOALS;
use task::Task;
use task::pass::follows;

// The place among all subgoals that a pair of bytes names. Between the beginnings of two uses lies the first one's own.
fn place_of(starts: &[u16; QUESTION_GOALS + 1], k: usize, row: u8, inner: u8) -> Option<u16>
    requires { k ≤ question_most }
    ensures { PlaceOf starts.now k row inner result }
{
    let of = row as usize;
    let within = inner as usize;
    if of < 1 {
        return None;
    }
    if k < of {
        return None;
    }
    if within < 1 {
        return None;
    }
    let place = starts[of - 1] as usize + (within - 1);
    if place < starts[of] as usize {
        return Some(place as u16);
    }
    None
}

// The places of n pairs; none where one of them names nothing.
fn pair_places(
    witness: &[u8],
    starts: &[u16; QUESTION_GOALS + 1],
    k: usize,
    n: usize,
) -> Option<[u16; USES_GOALS]>
    requires { (k ≤ question_most) × (n ≤ question_most) × (2 * n ≤ length witness.now) }
    ensures { PairsNamed witness.now starts.now k n result }
{
    let mut ks = [0u16; USES_GOALS];
    for i in 0..n {
        ks[i] = place_of(starts, k, witness[2 * i], witness[2 * i + 1])?;
    }
    Some(ks)
}

// Over the codes of the uses of k rows.
fn there_along(
    book: &[u8],
    target: &[u64],
    own: &[u8],
    starts: &[u16; QUESTION_GOALS + 1],
    k: usize,
    witness: &[u8],
) -> bool
    requires { ThereAlongNeeds book.now target.now own.now starts.now k }
    ensures { ThereAlongSays book.now target.now own.now starts.now k witness.now result }
{
    let mut source = [0u64; QUESTION_CODES];
    let mut widths = [0u8; QUESTION_GOALS];
    let n = question_source(book, &mut source, &mut widths);
    if witness.len() != 2 * n {
        return false;
    }
    let lasts = [0u8; QUESTION_GOALS];
    let b = question_bindings(book);
    let Some(ks) = pair_places(witness, starts, k, n) else {
        return false; // a pair that names nothing
    };
    let task = Task {
        source: &source[..SUBGOAL_CODES * n],
        widths: &widths[..n],
        lasts: &lasts[..n],
        target,
        own,
    };
    follows(&task, b, &ks)
}

// Whether the bytes are the first part of a witness of the rows.
pub fn goes_there(rows: &BookRows, witness: &[u8]) -> bool
    requires { of_rows FewRows rows.now }
    ensures { of_rows ThereCheckSays rows.now witness.now result }
{
    let mut target = [0u64; USES_CODES];
    let mut own = [0u8; USES_GOALS];
    let mut inner = [0u8; USES_GOALS];
    let goals = rows.expand(&mut target, &mut own, &mut inner);
    let mut starts = [0u16; QUESTION_GOALS + 1];
    rows.use_starts(&mut starts);
    there_along(
        rows.book,
        &target[..SUBGOAL_CODES * goals],
        &own[..goals],
        &starts,
        rows.count,
        witness,
    )
}
