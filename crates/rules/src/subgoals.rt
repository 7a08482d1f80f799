// A rule's terms and subgoals, read strictly from the front: the first fault, or where reading goes on and what was noted of them.
ghost use Rattle.std.specs.Prelude.{◌≡◌, ℕ, ◌<◌, ◌≤◌, length, drop, Result};
ghost use Rattle.spec.specs.Words.{var, con};
ghost use Rattle.spec.proofs.Bytes.RuleReading.{read_term, read_many, read_subgoal};
ghost use Rattle.rules.specs.Marked.{fresh, mark, marks, goal_marks, of_goal, stepped, Repeated};

use spec::VARIABLES;

// "a variable, numbered 0 to 31"
const VARIABLE_END: u32 = VARIABLES as u32;

// The ways to break the layout.
#[derive(Clone, Copy)]
pub enum Fault {
    Count,
    Relation,
    Tag,
    Variable,
    Early,
    Over,
}

// What is noted of terms on the way: their variables, and whether they are distinct variables.
#[derive(Clone, Copy)]
pub struct Marks {
    pub vars: u64,
    pub plain: bool,
}

impl Marks {
    // One variable more.
    #[tactic(auto, unfolding(crate::specs::Marked::mark))]
    fn with_variable(self, v: u32) -> Marks
        requires { v < 64 }
        ensures { result ≡ mark self (var v) }
    {
        Marks {
            vars: bits::add(self.vars, v),
            plain: !bits::holds(self.vars, v) && self.plain,
        }
    }

    // One constant more, whichever it is: the terms are no longer variables alone.
    #[tactic(auto, unfolding(crate::specs::Marked::mark))]
    fn with_constant(self) -> Marks
        ensures { (n : ℕ) → result ≡ mark self (con n) }
    {
        Marks {
            plain: false,
            ..self
        }
    }
}

// How far a reading has come: the place of the next byte, and the notes so far.
#[derive(Clone, Copy)]
pub struct Front {
    pub at: usize,
    pub notes: Marks,
}

impl Front {
    // A place, with nothing noted yet.
    pub fn new(at: usize) -> Front
        ensures { result ≡ fresh at }
    {
        Front {
            at,
            notes: Marks {
                vars: 0,
                plain: true,
            },
        }
    }
}

// The term at the front. Its tag is judged before the number behind it.
fn read_term(body: &[u8], front: Front) -> Result<Front, Fault>
    ensures { result ≡ stepped (mark front.notes) (length body.now) (read_term (drop front.at body.now)) }
{
    let Some(&tag) = body.get(front.at) else {
        return Err(Fault::Early);
    };
    if 1 < tag {
        return Err(Fault::Tag);
    }
    if body.len() - front.at < 5 {
        return Err(Fault::Early);
    }
    let n = numbers::u32_at(body, front.at + 1);
    let at = front.at + 5;
    if tag == 1 {
        return Ok(Front {
            at,
            notes: front.notes.with_constant(),
        });
    }
    if n < VARIABLE_END {
        return Ok(Front {
            at,
            notes: front.notes.with_variable(n),
        });
    }
    Err(Fault::Variable)
}

// k of a kind, one after the other; the first fault ends the reading.
fn read_many<F: Fn(Front) -> Result<Front, Fault>>(
    from: Front,
    k: usize,
    read_one: F,
) -> Result<Front, Fault>
    requires { F.IsAlwaysCallable read_one }
    ensures { Repeated (F.post read_one) k from result }
{
    let mut front = from;
    for _ in 0..k {
        let step = read_one(front);
        let Ok(next) = step else {
            return step;
        };
        front = next;
    }
    Ok(front)
}

// k terms from `from` on.
pub fn read_terms(body: &[u8], from: Front, k: usize) -> Result<Front, Fault>
    requires { from.at ≤ length body.now }
    ensures { result ≡ stepped (marks from.notes) (length body.now) (read_many read_term k (drop from.at body.now)) }
{
    read_many(from, k, |front| read_term(body, front))
}

// The subgoal at the front: a relation there is, and as many terms as its arity.
fn read_subgoal(body: &[u8], front: Front, relations: &[u8]) -> Result<Front, Fault>
    ensures { result ≡ stepped (of_goal front.notes) (length body.now) (read_subgoal relations.now (drop front.at body.now)) }
{
    let Some(&relation) = body.get(front.at) else {
        return Err(Fault::Early);
    };
    let Some(&arity) = relations.get(usize::from(relation)) else {
        return Err(Fault::Relation);
    };
    let at = front.at + 1;
    read_terms(body, Front { at, ..front }, usize::from(arity))
}

// k subgoals from `from` on.
pub fn read_subgoals(body: &[u8], from: Front, relations: &[u8], k: usize) -> Result<Front, Fault>
    requires { from.at ≤ length body.now }
    ensures { result ≡ stepped (goal_marks from.notes) (length body.now) (read_many (read_subgoal relations.now) k (drop from.at body.now)) }
{
    read_many(from, k, |front| read_subgoal(body, front, relations))
}
