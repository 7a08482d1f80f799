// The pass over the rows underway: the rows taken, those that may still be, and how many are left to take.
ghost use Rattle.std.specs.Prelude.{◌≡◌, ◌<◌, ◌≤◌};
ghost use Rattle.spec.specs.BookLayout.{question_most};
ghost use Rattle.spec.specs.Table.{most_rows};
ghost use Rattle.first_shortest.specs.Passing.{starting, taking, passing};

use crate::Chosen;
use spec::QUESTION_GOALS;

#[derive(Clone, Copy)]
pub(crate) struct Pass {
    pub used: u64,
    pub may: u64,
    pub left: usize,
    pub chosen: Chosen,
}

impl Pass {
    // Before the first row none is taken, and all may be.
    pub(crate) fn start(n: usize, k: usize) -> Pass
        requires { n ≤ most_rows }
        ensures { result ≡ starting n k }
    {
        Pass {
            used: 0,
            may: bits::below(n as u32),
            left: k,
            chosen: Chosen {
                k: 0,
                rows: [0; QUESTION_GOALS],
            },
        }
    }

    pub(crate) fn taken(self, row: usize) -> Pass
        requires row_lt_most_rows { row < most_rows }
        requires k_lt_question_most { self.chosen.k < question_most }
        requires left_nonzero { 0 < self.left }
        ensures { result ≡ taking self row }
    {
        let mut chosen = self.chosen;
        chosen.rows[chosen.k] = row as u8;
        chosen.k += 1;
        Pass {
            used: bits::add(self.used, row as u32),
            may: bits::remove(self.may, row as u32),
            left: self.left - 1,
            chosen,
        }
    }

    pub(crate) fn passed(self, row: usize) -> Pass
        requires { row < most_rows }
        ensures { result ≡ passing self row }
    {
        Pass {
            may: bits::remove(self.may, row as u32),
            ..self
        }
    }
}
