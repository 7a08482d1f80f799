// The task of choosing rows, posed for a sound book's question over all its summary rows.
#![tactic(auto)]

ghost use Rattle.std.specs.Prelude.{◌≤◌};
ghost use Rattle.spec.specs.Table.{most_rows};
ghost use Rattle.book_codes.specs.OfRows.{of_rows};
ghost use Rattle.book_codes.specs.RowsGiven.{RowsGiven};
ghost use Rattle.row_choice.specs.Asked.{ChoiceNeeds, RowChoiceSays};
ghost use Rattle.row_choice.specs.Targets.{Targets, Owners};
ghost use Rattle.row_choice.specs.Dominance.{Dominance};

mod dominators; // which rows dominate a row

use crate::dominators::dominators;
use book_codes::question::{question_bindings, question_source};
use book_codes::uses::BookRows;
use codes::{QUESTION_CODES, ROWS_GOALS, ROWS_USES_CODES, SUBGOAL_CODES};
use first_shortest::{Chosen, RowSearch, choose};
use spec::{MOST_ROWS, QUESTION_GOALS};
use task::Task;

// Of each row the set of rows that dominate it.
fn dominance(rows: &BookRows, target: &[u64]) -> [u64; MOST_ROWS]
    requires { of_rows RowsGiven rows.now × (rows.now.count ≤ most_rows) × of_rows Targets rows.now target.now }
    ensures { of_rows Dominance rows.now result }
{
    let mut starts = [0u16; MOST_ROWS + 1];
    rows.use_starts(&mut starts);
    let mut table = [0u64; MOST_ROWS];
    for r in 0..rows.count {
        table[r] = dominators(rows, r, target, &starts);
    }
    table
}

// The rows are chosen, given the codes of their uses.
fn choose_onto(rows: &BookRows, target: &[u64], own: &[u8]) -> Option<Chosen>
    requires { of_rows ChoiceNeeds rows.now × of_rows Targets rows.now target.now × of_rows Owners rows.now own.now }
    ensures { of_rows RowChoiceSays rows.now result }
{
    let mut source = [0u64; QUESTION_CODES];
    let mut widths = [0u8; QUESTION_GOALS];
    let k = question_source(rows.book, &mut source, &mut widths);
    let lasts = [0u8; QUESTION_GOALS];
    let bound = question_bindings(rows.book);
    let dominators = dominance(rows, target);
    let task = Task {
        source: &source[..SUBGOAL_CODES * k],
        widths: &widths[..k],
        lasts: &lasts[..k],
        target,
        own,
    };
    choose(&RowSearch {
        task,
        bound,
        n: rows.count,
        dominators,
    })
}

// The first of the shortest equivalent lists of the rows, by their numbers; None if there is none.
pub fn choose_rows(rows: &BookRows) -> Option<Chosen>
    requires { of_rows ChoiceNeeds rows.now }
    ensures { of_rows RowChoiceSays rows.now result }
{
    let mut target = [0u64; ROWS_USES_CODES];
    let mut own = [0u8; ROWS_GOALS];
    let mut inner = [0u8; ROWS_GOALS];
    let goals = rows.expand(&mut target, &mut own, &mut inner);
    choose_onto(rows, &target[..SUBGOAL_CODES * goals], &own[..goals])
}
