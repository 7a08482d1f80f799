// What stands where in a rule's bytes.
ghost use Rattle.std.specs.Prelude.{List, ℕ};
ghost use Rattle.rule_codes.specs.Laid.{Laid};
ghost use Rattle.rule_codes.specs.Promises.{HeadCount, GoalCount};
ghost use Rattle.rule_codes.specs.Steps.{SomeTerm, SomeTerms, CodeAt, PaddedAt, PaddedCodes, WalkedTo};

use codes::{CONSTANT, NONE};
use spec::{MOST_ARITY, VARIABLES};

// "one byte head length"
pub fn head_count(body: &[u8]) -> usize
    requires { Laid body.now }
    ensures { HeadCount body.now result }
{
    usize::from(body[0])
}

// "one byte subgoal count"
pub fn goal_count(body: &[u8]) -> usize
    requires { Laid body.now }
    ensures { GoalCount body.now result }
{
    usize::from(body[1])
}

// Where the first subgoal begins: behind the head's terms.
pub(crate) fn first_goal(body: &[u8]) -> usize
    requires { Laid body.now }
    ensures { (arities : List ℕ) → WalkedTo arities body.now 0 result }
{
    2 + 5 * head_count(body)
}

// The code of the term at `at`; the table has the variables' codes.
pub fn code_at(body: &[u8], at: usize, table: &[u64; VARIABLES]) -> u64
    requires { SomeTerm body.now at }
    ensures { CodeAt body.now at table.now result }
{
    let n = numbers::u32_at(body, at + 1);
    if body[at] == 1 {
        return CONSTANT + n as u64;
    }
    table[n as usize]
}

// Code k of the terms from `at` on.
pub fn padded_at(body: &[u8], at: usize, many: usize, k: usize, table: &[u64; VARIABLES]) -> u64
    requires { SomeTerms body.now at many }
    ensures { PaddedAt body.now at many k table.now result }
{
    if k < many {
        return code_at(body, at + 5 * k, table);
    }
    NONE
}

// The eight codes of the terms from `at` on: a head and a subgoal have no more.
pub(crate) fn padded_codes(
    body: &[u8],
    at: usize,
    many: usize,
    table: &[u64; VARIABLES],
) -> [u64; MOST_ARITY]
    requires { SomeTerms body.now at many }
    ensures { PaddedCodes body.now at many table.now result }
{
    std::array::from_fn(|k| padded_at(body, at, many, k, table))
}
