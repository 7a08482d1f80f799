// Places that are given, not searched: whether they are those of a mapping. One pass, a subgoal after the other, binds each slot where it is met first.
ghost use Rattle.std.specs.Prelude.{◌≡◌, ◌<◌, length};
ghost use Rattle.codes.specs.Code.{most_slots};
ghost use Rattle.task.specs.Task.{goals};
ghost use Rattle.task.specs.Held.{task_of};
ghost use Rattle.task.specs.Follows.{Follows};
ghost use Rattle.task.specs.Leads.{Leads};

use crate::Task;
use crate::terms::{alike, opened, stands};
use codes::{SLOTS, USES_GOALS};

// Whether the source subgoal i becomes the target k. If so, g then has what is bound for the next one; nothing is tried again, so no copy is kept.
fn step(task: &Task, i: usize, k: usize, g: &mut [u64; SLOTS]) -> bool
    requires i_in_bounds { i < goals (task_of task.now) }
    ensures { Leads (task_of task.now) g.old i k result g.new }
{
    if task.own.len() <= k {
        return false; // there is no such target
    }
    if !task.is_related(i, k) {
        return false; // another relation
    }
    for a in 0..task.width(i) {
        let x = task.source_term(i, a);
        let y = task.target_term(k, a);
        let have = stands(g, x);
        if have == 0 {
            g[x as usize] = y;
        } else if !alike(have, y) {
            return false; // an unlike term
        }
    }
    opened(g, task.lasts[i]);
    true
}

// Whether the places given are those of a mapping: one pass, no search.
pub fn follows(task: &Task, b: [u64; SLOTS], ks: &[u16; USES_GOALS]) -> bool
    ensures { Follows (task_of task.now) b ks.now result }
{
    let mut g = b;
    for i in 0..task.widths.len() {
        if !step(task, i, ks[i] as usize, &mut g) {
            return false; // a place that does not fit
        }
    }
    true
}
