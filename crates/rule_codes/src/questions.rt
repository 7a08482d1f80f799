// The terms of a question, in ascending order.
ghost use Rattle.std.specs.Prelude.{◌≤◌, length};
ghost use Rattle.spec.specs.BookLayout.{Arities, question_most};
ghost use Rattle.codes.specs.Code.{question_codes};
ghost use Rattle.rule_codes.specs.Bodies.{goals_of, TermsPut};

use crate::Body;
use crate::ascending::ascending;
use crate::tables::base_table;
use codes::{QUESTION_CODES, SUBGOAL_CODES, VARIABLE};

impl Body<'_> {
    // The terms of a question's body, as codes, ascending and each once, at the front of `out`. (A summary's row has no other terms.) Returns how many there are.
    pub fn body_terms(&self, out: &mut [u64]) -> usize
        requires { Arities self.now.relations.now × (goals_of self.now ≤ question_most) × (question_codes ≤ length out.old) }
        ensures { TermsPut self.now out.old out.new result }
    {
        let table = base_table(VARIABLE);
        let mut codes = [0u64; QUESTION_CODES];
        let used = SUBGOAL_CODES * self.put_subgoals(&table, &mut codes);
        ascending(&codes[..used], out)
    }
}
