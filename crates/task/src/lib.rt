// A task of the search, a step of it, and whether places that are given are those of a mapping.
#![tactic(auto)]

ghost use Rattle.task.specs.Task.{posed, Sized};

pub mod pass; // places that are given, followed in one pass
mod subgoals; // a task's relations and terms
pub mod terms; // terms and slots, bindings where a use starts

// A task of placing: each source subgoal is to become one of the targets. Its parts travel together, and have the sizes that the search needs.
#[derive(Clone, Copy)]
pub struct Task<'a> {
    // the codes of the source subgoals; of each how many of its terms count, and whether it ends its use
    // (a number, not a bool: `Linked` and `use_of` of specs/ read it so)
    pub source: &'a [u64],
    pub widths: &'a [u8],
    pub lasts: &'a [u8],
    // the codes of the targets, and the row of each
    pub target: &'a [u64],
    pub own: &'a [u8],
    ghost sized: { Sized (posed source.now widths.now lasts.now target.now own.now) },
}
