// Which rows dominate a row of a sound book: the set of those in whose use its own use can be found.
ghost use Rattle.std.specs.Prelude.{◌<◌, ◌≤◌};
ghost use Rattle.spec.specs.Table.{most_rows};
ghost use Rattle.book_codes.specs.OfRows.{of_rows};
ghost use Rattle.book_codes.specs.RowsGiven.{RowsGiven};
ghost use Rattle.row_choice.specs.Dominators.{NoRelation, PairNeeds, PairSays, AgainstNeeds, AgainstSays, RowsAsTargets, DominatorsOf};

use book_codes::one_use::kept_use;
use book_codes::uses::BookRows;
use codes::{SUBGOAL_CODES, SUMMARY_CODES};
use first_shortest::feasibility::dominates;
use spec::{MOST_ROWS, SUMMARY_GOALS};
use task::Task;

// Whether one of the target's subgoals is of that relation.
fn has_relation(target: &[u64], relation: u64) -> bool
    ensures { NoRelation target.now relation result }
{
    target
        .chunks_exact(SUBGOAL_CODES)
        .any(|goal| goal[0] == relation)
}

// Whether the source's use goes into the target's. Both are single uses: what is marked beside their subgoals does not matter.
fn goes_into(source: &[u64], widths: &[u8], target: &[u64]) -> bool
    requires { PairNeeds source.now widths.now target.now }
    ensures { PairSays source.now widths.now target.now result }
{
    // most pairs have nothing in common, and the search need not be asked
    if !has_relation(target, source[0]) {
        return false;
    }
    let lasts = [0u8; SUMMARY_GOALS];
    let own = [0u8; SUMMARY_GOALS];
    dominates(&Task {
        source,
        widths,
        lasts: &lasts[..widths.len()],
        target,
        own: &own[..target.len() / SUBGOAL_CODES],
    })
}

// The rows into whose use the source's goes.
fn those_over(
    source: &[u64],
    widths: &[u8],
    target: &[u64],
    starts: &[u16; MOST_ROWS + 1],
    n: usize,
) -> u64
    requires { AgainstNeeds source.now widths.now target.now starts.now n }
    ensures { AgainstSays source.now widths.now target.now starts.now n result }
{
    let mut set: u64 = 0;
    for d in 0..n {
        let from = SUBGOAL_CODES * starts[d] as usize;
        let to = SUBGOAL_CODES * starts[d + 1] as usize;
        if goes_into(source, widths, &target[from..to]) {
            set = bits::add(set, d as u32);
        }
    }
    set
}

// The rows that dominate row r, each row by itself.
pub fn dominators(rows: &BookRows, r: usize, target: &[u64], starts: &[u16; MOST_ROWS + 1]) -> u64
    requires { of_rows RowsGiven rows.now × (rows.now.count ≤ most_rows) × (r < rows.now.count) × of_rows RowsAsTargets rows.now target.now starts.now }
    ensures { of_rows DominatorsOf rows.now r result }
{
    let mut source = [0u64; SUMMARY_CODES];
    let mut widths = [0u8; SUMMARY_GOALS];
    let row = SUBGOAL_CODES * r;
    let goals = kept_use(rows.book, &rows.codes[row..], &mut source, &mut widths);
    those_over(
        &source[..SUBGOAL_CODES * goals],
        &widths[..goals],
        target,
        starts,
        rows.count,
    )
}
