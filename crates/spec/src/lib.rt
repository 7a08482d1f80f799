// What must be believed, in specs/: the words of the specification, the layout of books, the refusal table, and what is promised.
// Here stand the types that public functions answer with, and the limits, each of which has its definition in specs/; there is no code
// but a refusal's number and place. The laws of the definitions stand in proofs/.
#![tactic(auto)]

ghost use Rattle.std.specs.Prelude.{◌≡◌};
ghost use Rattle.spec.specs.Told.{told_of};

// A refusal: the table's number, and its place, which is the entry of a faulty rule and 0 for all else.
// Callers in C are told a sound book as number 0 at place 0.
#[repr(C)]
#[derive(Clone, Copy)]
pub struct Reason {
    pub number: u8,
    pub place: usize,
}

// Why something is refused: a variant for each row of the refusal table, with the entry where a rule is at fault.
#[derive(Clone, Copy)]
pub enum Refused {
    Room, // 1: a lent area or the lent table is too small
    Size, // 2: below 2 or above 25,040 bytes
    Count, // 3: more than 64 summaries
    Contents, // 4: the book ends inside the contents, or there are gaps
    Relations, // 5: stamp not 0, length or an arity out of range
    Layout(usize), // 6: a rule breaks its layout
    Unsafe(usize), // 7: a rule isn't safe
    Repeats(usize), // 8: a summary's head holds a constant or a variable twice
    Rows, // 9: more than 64 summary rows
    NoRewriting, // 10: no equivalent rewriting
}

// The refusal as the table has it.
impl From<Refused> for Reason {
    ghost from_gives = { λ refused reason. reason ≡ told_of refused };

    fn from(refused: Refused) -> Reason {
        let (number, place) = match refused {
            Refused::Room => (1, 0),
            Refused::Size => (2, 0),
            Refused::Count => (3, 0),
            Refused::Contents => (4, 0),
            Refused::Relations => (5, 0),
            Refused::Layout(entry) => (6, entry),
            Refused::Unsafe(entry) => (7, entry),
            Refused::Repeats(entry) => (8, entry),
            Refused::Rows => (9, 0),
            Refused::NoRewriting => (10, 0),
        };
        Reason { number, place }
    }
}

// An entry of the contents.
#[derive(Clone, Copy)]
pub struct Entry {
    pub offset: u32,
    pub length: u32,
    pub stamp: u32,
}

// The lengths of answer and witness.
#[derive(Clone, Copy)]
pub struct Lengths {
    pub answer: usize,
    pub witness: usize,
}

// "The longest sound book has 25,040 bytes"
pub const LONGEST_BOOK: usize = 25040;

// "the count n of summaries, 0 to 64"
pub const MOST_SUMMARIES: usize = 64;

// "a lent table of 66 entry records"
pub const TABLE_ROOM: usize = 66;

// "Relations: 1 to 32 bytes, each an arity 1 to 8"
pub const MOST_RELATIONS: usize = 32;

pub const MOST_ARITY: usize = 8;

// "a head (0 to 8 terms)"
pub const MOST_HEAD: usize = 8;

// "a variable, numbered 0 to 31"
pub const VARIABLES: usize = 32;

// "question 1 to 12, summary 1 to 8" subgoals
pub const QUESTION_GOALS: usize = 12;

pub const SUMMARY_GOALS: usize = 8;

// "answer area below 534 bytes, or witness area below 120"
pub const ANSWER_ROOM: usize = 534;

pub const WITNESS_ROOM: usize = 120;

// "more than 64 summary rows"
pub const MOST_ROWS: usize = 64;
