// The choice of rows: how few can do, then a pass over the rows in their order that takes each row with which the later ones can still do.
#![tactic(auto)]

ghost use Rattle.std.specs.Prelude.{◌<◌, ◌≤◌};
ghost use Rattle.spec.specs.BookLayout.{question_most};
ghost use Rattle.spec.specs.Table.{most_rows};
ghost use Rattle.task.specs.Held.{task_of};
ghost use Rattle.first_shortest.specs.Pruning.{FeasibilityNeeds};
ghost use Rattle.first_shortest.specs.Chosen.{ChoiceSays};
ghost use Rattle.first_shortest.specs.Passing.{Fewest, FewestIfAny, Tried};

pub mod feasibility; // whether rows can do; whether a row dominates another
mod pass; // the rows taken so far

use crate::pass::Pass;
use codes::SLOTS;
use spec::{MOST_ROWS, QUESTION_GOALS};
use task::Task;

// What rows are chosen for: a question's task over the uses of n rows, the slots that are bound from the start, and of each row the set of those that dominate it.
#[derive(Drop)]
pub struct RowSearch<'a> {
    pub task: Task<'a>,
    pub bound: [u64; SLOTS],
    pub n: usize,
    pub dominators: [u64; MOST_ROWS],
    ghost few: { n ≤ most_rows },
    ghost posed: { ∥ FeasibilityNeeds (task_of task) bound n dominators ∥₁ },
}

// How many rows are chosen, and their numbers, in order. (Fixed memory: no Vec.)
#[derive(Clone, Copy)]
pub struct Chosen {
    pub k: usize,
    pub rows: [u8; QUESTION_GOALS],
}

impl RowSearch<'_> {
    // How few rows can do. Whether 12 can is asked first, since where they cannot do, fewer cannot.
    fn fewest(&self) -> Option<usize>
        ensures { FewestIfAny (task_of self.now.task) self.now.bound self.now.n result }
    {
        let all = bits::below(self.n as u32);
        if !self.can(0, all, QUESTION_GOALS) {
            return None;
        }
        for k in 0..QUESTION_GOALS {
            if self.can(0, all, k) {
                return Some(k);
            }
        }
        Some(QUESTION_GOALS)
    }

    // The row is taken if with it, and one fewer to take, the later rows can still do.
    fn one_row(&self, row: usize, pass: Pass) -> Pass
        requires row_lt_n { row < self.now.n }
        requires k_lt_question_most { pass.chosen.k < question_most }
        requires left_nonzero { 0 < pass.left }
        ensures { Tried (task_of self.now.task) self.now.bound row pass result }
    {
        let taken = pass.taken(row);
        if self.can(taken.used, taken.may, taken.left) {
            return taken;
        }
        pass.passed(row)
    }

    // Where k rows can do and fewer cannot: the first k that can.
    fn first_rows(&self, k: usize) -> Chosen
        requires { Fewest (task_of self.now.task) self.now.bound self.now.n k }
        ensures { ChoiceSays (task_of self.now.task) self.now.bound self.now.n (Some result) }
    {
        let mut pass = Pass::start(self.n, k);
        for row in 0..self.n {
            if pass.left == 0 {
                break;
            }
            pass = self.one_row(row, pass);
        }
        pass.chosen
    }
}

// The first of the shortest equivalent lists of rows, by their numbers; None where no list of rows will do.
pub fn choose(search: &RowSearch) -> Option<Chosen>
    ensures { ChoiceSays (task_of search.now.task) search.now.bound search.now.n result }
{
    let k = search.fewest()?;
    Some(search.first_rows(k))
}
