// Rows of a book, and their uses, one after the other.
ghost use Rattle.std.specs.Prelude.{◌+◌, ◌*◌, ◌<◌, ◌≤◌, length};
ghost use Rattle.spec.specs.Table.{most_rows};
ghost use Rattle.spec.specs.BookLayout.{question_most, summary_most};
ghost use Rattle.codes.specs.Code.{own_code, own_slot, summary_codes};
ghost use Rattle.book_codes.specs.RowsGiven.{RowsGiven};
ghost use Rattle.book_codes.specs.OfRows.{of_rows};
ghost use Rattle.book_codes.specs.AllUses.{GoalsCounted, AllCodes, AllOwners, AllInsides, AllWidths, AllEnds, AllStarts};

use crate::marks::{count_up, mark_end};
use crate::one_use::{own_use, slot_use, use_count};
use codes::SUBGOAL_CODES;

// Rows over admitted summaries of a book: so many, nine codes each at the front.
// (No ghost field says `RowsGiven`: it would have to name the book's value and the list, and truncated it cannot give `own_use` the row that this asks for.)
#[derive(Clone, Copy)]
pub struct BookRows<'a> {
    pub book: &'a [u8],
    pub codes: &'a [u64],
    pub count: usize,
}

impl BookRows<'_> {
    // As a target: of each subgoal its nine codes, the number of its use and its place there. Returns how many subgoals there are.
    pub fn expand(&self, out: &mut [u64], own: &mut [u8], inner: &mut [u8]) -> usize
        requires { of_rows RowsGiven self.now × (self.now.count ≤ most_rows) × (summary_codes * self.now.count ≤ length out.old) × (summary_most * self.now.count ≤ length own.old) × (summary_most * self.now.count ≤ length inner.old) }
        ensures { of_rows GoalsCounted self.now result × of_rows AllCodes self.now own_code out.old out.new × of_rows AllOwners self.now own.old own.new × of_rows AllInsides self.now inner.old inner.new }
    {
        let mut at: usize = 0;
        for (r, row) in self
            .codes
            .chunks_exact(SUBGOAL_CODES)
            .take(self.count)
            .enumerate()
        {
            let goals = own_use(self.book, row, r as u64, &mut out[SUBGOAL_CODES * at..]);
            let end = at + goals;
            own[at..end].fill(r as u8);
            count_up(&mut inner[at..end]);
            at = end;
        }
        at
    }

    // As a source: of each subgoal its nine codes, how many terms it has, and whether it ends its use. Returns how many subgoals there are.
    // (Beside `expand`: one function for both would be lent what it does of a row with three areas as a closure, which is no plainer.)
    pub fn expand_back(&self, out: &mut [u64], widths: &mut [u8], lasts: &mut [u8]) -> usize
        requires { of_rows RowsGiven self.now × (self.now.count ≤ question_most) × (summary_codes * self.now.count ≤ length out.old) × (summary_most * self.now.count ≤ length widths.old) × (summary_most * self.now.count ≤ length lasts.old) }
        ensures { of_rows GoalsCounted self.now result × of_rows AllCodes self.now own_slot out.old out.new × of_rows AllWidths self.now widths.old widths.new × of_rows AllEnds self.now lasts.old lasts.new }
    {
        let mut at: usize = 0;
        for row in self.codes.chunks_exact(SUBGOAL_CODES).take(self.count) {
            let goals = slot_use(
                self.book,
                row,
                &mut out[SUBGOAL_CODES * at..],
                &mut widths[at..],
            );
            let end = at + goals;
            mark_end(&mut lasts[at..end]);
            at = end;
        }
        at
    }

    // Where each row's use begins among the subgoals of all, and behind that where the last ends: what lies between two is one row's.
    pub fn use_starts(&self, starts: &mut [u16])
        requires { of_rows RowsGiven self.now × (self.now.count ≤ most_rows) × (self.now.count + 1 ≤ length starts.old) }
        ensures { of_rows AllStarts self.now starts.old starts.new }
    {
        let mut at: usize = 0;
        starts[0] = 0;
        for (r, row) in self
            .codes
            .chunks_exact(SUBGOAL_CODES)
            .take(self.count)
            .enumerate()
        {
            at += use_count(self.book, row);
            starts[r + 1] = at as u16;
        }
    }
}
