// The rows of one summary, in order, as codes: one after the other, each written behind those before it.
#![tactic(auto)]

ghost use Rattle.std.specs.Prelude.{◌≡◌, ◌+◌, ◌*◌, ◌≤◌, length, take};
ghost use Rattle.std.proofs.Math.Seq.{paste};
ghost use Rattle.codes.specs.Code.{subgoal_size};
ghost use Rattle.task.specs.Held.{task_of};
ghost use Rattle.summary_rows.specs.RowCodes.{row_codes};
ghost use Rattle.summary_rows.specs.RowPlaces.{HeadTask, NextRowNeeds};
ghost use Rattle.summary_rows.specs.RowsAfter.{RowsNeeds, RowsSays};

mod row_places; // rows as places of the head

use codes::{NONE, SUBGOAL_CODES};
use placing::Places;
use spec::MOST_ROWS;
use task::Task;

// The task whose mappings give a summary's rows: its first `head` source subgoals are the places of the head.
#[derive(Clone, Copy)]
pub struct RowTask<'a> {
    pub task: Task<'a>,
    pub head: usize,
    ghost ready: { HeadTask (task_of task) head },
}

impl RowTask<'_> {
    // A row's nine codes, behind `count` rows: its summary's number, the codes of its terms, and 1 where they have ended.
    fn put_row(&self, number: u64, ks: Places, count: usize, out: &mut [u64])
        requires row { NextRowNeeds (task_of self.now.task) self.now.head ks }
        requires room { subgoal_size * count + subgoal_size ≤ length out.old }
        ensures { out.new ≡ paste out.old (subgoal_size * count) (row_codes number self.now.task.target.now (take self.now.head ks)) subgoal_size }
    {
        let mut row = [NONE; SUBGOAL_CODES];
        row[0] = number;
        for i in 0..self.head {
            row[i + 1] = self.task.target_term(usize::from(ks[i]), 0);
        }
        let at = SUBGOAL_CODES * count;
        out[at..at + SUBGOAL_CODES].copy_from_slice(&row);
    }
}

// The rows of the summary numbered `number`, behind the `found` rows that stand in `out`: how many stand there then, or none at the 65th in all,
// which is not written.
pub fn rows_of(rows: &RowTask, number: u64, found: usize, out: &mut [u64]) -> Option<usize>
    requires { RowsNeeds (task_of rows.now.task) rows.now.head found (length out.old) }
    ensures { RowsSays (task_of rows.now.task) rows.now.head number found out.old out.new result }
{
    let mut count = found;
    let mut row = rows.first_row();
    while let Some(ks) = row {
        if count == MOST_ROWS {
            return None;
        }
        rows.put_row(number, ks, count, out);
        count += 1;
        row = rows.next_row(ks);
    }
    Some(count)
}
