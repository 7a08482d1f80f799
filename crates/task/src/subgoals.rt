// A task's relations and terms, where they stand among the codes.
ghost use Rattle.std.specs.Prelude.{◌≡◌, true, ◌↔◌, ◌<◌, ◌≤◌};
ghost use Rattle.spec.specs.BookLayout.{most_arity};
ghost use Rattle.task.specs.Task.{goals, targets, source_relation, source_term, target_relation, target_term, width_of};
ghost use Rattle.task.specs.Held.{task_of};

use crate::Task;
use codes::SUBGOAL_CODES;

impl Task<'_> {
    // Whether the target k is of the source subgoal's relation.
    pub fn is_related(&self, i: usize, k: usize) -> bool
        requires i_in_bounds { i < goals (task_of self.now) }
        requires k_in_bounds { k < targets (task_of self.now) }
        ensures { (result ≡ true) ↔ (target_relation (task_of self.now) k ≡ source_relation (task_of self.now) i) }
    {
        self.target[SUBGOAL_CODES * k] == self.source[SUBGOAL_CODES * i]
    }

    // How many terms of the source subgoal i count.
    pub fn width(&self, i: usize) -> usize
        requires { i < goals (task_of self.now) }
        ensures { (result ≡ width_of (task_of self.now) i) × (result ≤ most_arity) }
    {
        self.widths[i] as usize
    }

    // The term a of the source subgoal i.
    pub fn source_term(&self, i: usize, a: usize) -> u64
        requires i_in_bounds { i < goals (task_of self.now) }
        requires a_in_bounds { a < most_arity }
        ensures { result ≡ source_term (task_of self.now) i a }
    {
        self.source[SUBGOAL_CODES * i + 1 + a]
    }

    // The term a of the target k.
    pub fn target_term(&self, k: usize, a: usize) -> u64
        requires k_in_bounds { k < targets (task_of self.now) }
        requires a_in_bounds { a < most_arity }
        ensures { result ≡ target_term (task_of self.now) k a }
    {
        self.target[SUBGOAL_CODES * k + 1 + a]
    }
}
