// Terms and subgoals as codes: their sizes and tags. The definitions stand in specs/, with the laws that tie them to rules in proofs/.
#![tactic(auto)]

use spec::{MOST_ROWS, QUESTION_GOALS, SUMMARY_GOALS, VARIABLES};

// A subgoal is so many codes: its relation, and a term for each place of the widest one.
pub const SUBGOAL_CODES: usize = 9;

// A code is a number, not an enum of terms: all definitions and theorems over codes (specs/Code, search_meaning) speak of numbers.
// The tags of codes: a variable, a constant, a use's own variable. A code's number is below the unit of the tags.
pub const UNIT: u64 = 4294967296;

pub const VARIABLE: u64 = UNIT;

pub const CONSTANT: u64 = 2 * UNIT;

pub const FRESH: u64 = 3 * UNIT;

// The code where a subgoal's terms have ended.
pub const NONE: u64 = 1;

// Slots for the variables that all uses share, and behind them for those of the current use.
pub const SLOTS: usize = 2 * VARIABLES;

// The codes of a question, and of a summary.
pub const QUESTION_CODES: usize = SUBGOAL_CODES * QUESTION_GOALS;

pub const SUMMARY_CODES: usize = SUBGOAL_CODES * SUMMARY_GOALS;

// The subgoals of the uses of a rewriting, and their codes.
pub const USES_GOALS: usize = QUESTION_GOALS * SUMMARY_GOALS;

pub const USES_CODES: usize = SUBGOAL_CODES * USES_GOALS;

// The codes of all summary rows; the subgoals of the uses of all of them, and their codes.
pub const ROWS_CODES: usize = SUBGOAL_CODES * MOST_ROWS;

pub const ROWS_GOALS: usize = MOST_ROWS * SUMMARY_GOALS;

pub const ROWS_USES_CODES: usize = SUBGOAL_CODES * ROWS_GOALS;
