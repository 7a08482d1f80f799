// A sound book as codes: its question, and the uses of rows over its admitted summaries.
#![tactic(auto)]

pub mod marks; // numbers beside the subgoals of a use
pub mod one_use; // one row's use
pub mod question; // the question
pub mod uses; // rows, and their uses
