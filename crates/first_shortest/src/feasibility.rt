// Whether rows can do, by the search over them less those that others dominate: wherever such a row serves, the other does. And whether a row dominates another.
ghost use Rattle.std.specs.Prelude.{◌<◌};
ghost use Rattle.spec.specs.Table.{most_rows};
ghost use Rattle.task.specs.Held.{task_of};
ghost use Rattle.placing.specs.FirstPlaces.{Enough};
ghost use Rattle.first_shortest.specs.Pruning.{Spared, Pruned, DominanceNeeds, DominanceSays};

use crate::RowSearch;
use codes::SLOTS;
use task::Task;

// Without the row, if another that is used or may be dominates it; `over` has the rows that do.
fn spared(used: u64, may: u64, over: u64, row: usize) -> u64
    requires { row < most_rows }
    ensures { Spared used may over row result }
{
    let others = bits::remove(over, row as u32);
    let there = bits::join(used, may);
    if bits::meets(others, there) {
        return bits::remove(may, row as u32);
    }
    may
}

impl RowSearch<'_> {
    // The rows that may be taken, less those that others dominate. One row is dropped at a time: of two that dominate each other one stays.
    fn pruned(&self, used: u64, may: u64) -> u64
        ensures { Pruned self.now.dominators self.now.n used may result }
    {
        let mut kept = may;
        for row in 0..self.n {
            kept = spared(used, kept, self.dominators[row], row);
        }
        kept
    }

    // Whether the rows used, and at most `left` of those that may be, can do.
    pub fn can(&self, used: u64, may: u64, left: usize) -> bool
        ensures { Enough (task_of self.now.task) self.now.bound used may left result }
    {
        let kept = self.pruned(used, may);
        placing::enough(&self.task, self.bound, used, kept, left)
    }
}

// Whether one row dominates another: the source is the other's use, the target its own.
pub fn dominates(task: &Task) -> bool
    requires { DominanceNeeds (task_of task.now) }
    ensures { DominanceSays (task_of task.now) result }
{
    placing::first_places(task, [0; SLOTS]).is_some()
}
