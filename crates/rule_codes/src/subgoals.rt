// A body's subgoals as codes, nine each, and as widths.
ghost use Rattle.std.specs.Prelude.{◌≡◌, ◌+◌, ◌<◌, ◌≤◌, length, get_or};
ghost use Rattle.codes.specs.Code.{subgoal_size};
ghost use Rattle.rule_codes.specs.Codes.{tabled};
ghost use Rattle.rule_codes.specs.Bodies.{RoomFor, CodesPut, WidthsPut};
ghost use Rattle.rule_codes.specs.Steps.{SomeGoal, NineAt};

use crate::Body;
use crate::places::{first_goal, goal_count, padded_codes};
use codes::SUBGOAL_CODES;
use spec::VARIABLES;

// The subgoal at `at`: its relation and eight terms, from `to` on.
fn put_subgoal(
    body: &[u8],
    at: usize,
    arity: usize,
    table: &[u64; VARIABLES],
    out: &mut [u64],
    to: usize,
)
    requires { SomeGoal body.now at arity × (to + subgoal_size ≤ length out.old) }
    ensures { NineAt body.now at arity to table.now out.old out.new }
{
    out[to] = u64::from(body[at]);
    out[to + 1..to + SUBGOAL_CODES].copy_from_slice(&padded_codes(body, at + 1, arity, table));
}

impl Body<'_> {
    // The arity of the relation whose number stands at `at`.
    fn arity_at(&self, at: usize) -> u8
        requires { (at < length self.now.bytes.now) × (get_or self.now.bytes.now at 0 < length self.now.relations.now) }
        ensures { result ≡ get_or self.now.relations.now (get_or self.now.bytes.now at 0) 0 }
    {
        self.relations[usize::from(self.bytes[at])]
    }

    // The codes of every subgoal at the front of `out`; the table has the variables' codes. Returns how many subgoals there are.
    pub(crate) fn put_subgoals(&self, table: &[u64; VARIABLES], out: &mut [u64]) -> usize
        requires { RoomFor self.now subgoal_size (length out.old) }
        ensures { CodesPut self.now (tabled table.now) out.old out.new result }
    {
        let goals = goal_count(self.bytes);
        let mut at = first_goal(self.bytes);
        for i in 0..goals {
            let arity = usize::from(self.arity_at(at));
            put_subgoal(self.bytes, at, arity, table, out, SUBGOAL_CODES * i);
            at += 1 + 5 * arity;
        }
        goals
    }

    // How many terms each subgoal has, at the front of `widths`. Returns how many subgoals there are.
    pub(crate) fn put_widths(&self, widths: &mut [u8]) -> usize
        requires { RoomFor self.now 1 (length widths.old) }
        ensures { WidthsPut self.now widths.old widths.new result }
    {
        let goals = goal_count(self.bytes);
        let mut at = first_goal(self.bytes);
        // The walk is that of put_subgoals; as a struct with a method it would be longer than the two lines that both have.
        for width in &mut widths[..goals] {
            *width = self.arity_at(at);
            at += 1 + 5 * usize::from(*width);
        }
        goals
    }
}
