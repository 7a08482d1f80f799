// A rule's bytes, read strictly from the front: is it sound, and if not, for which reason.
#![tactic(auto)]

ghost use Rattle.std.specs.Prelude.{◌≡◌};
ghost use Rattle.spec.proofs.Bytes.RuleReading.{read_rule};
ghost use Rattle.rules.specs.Wholes.{whole_of};
ghost use Rattle.rules.specs.Judged.{Judged};

mod subgoals; // terms and subgoals, read from the front

// a defect tells the fault, so those who ask for one find it here
pub use crate::subgoals::Fault;
use crate::subgoals::{Front, Marks, read_subgoals, read_terms};
use spec::MOST_HEAD;

// What was noted of a whole rule.
#[derive(Clone, Copy)]
struct Notes {
    head: Marks,
    body: Marks,
}

// Why a rule is not sound.
#[derive(Clone, Copy)]
pub enum Defect {
    Broken(Fault),
    Unsafe,
    Repeats,
}

// A whole rule of at most `most` subgoals: two counts, the head's terms, the subgoals, and nothing over.
fn read_rule(body: &[u8], relations: &[u8], most: usize) -> Result<Notes, Fault>
    ensures { result ≡ whole_of (read_rule relations.now most body.now) }
{
    let Some(&heads) = body.first() else {
        return Err(Fault::Early);
    };
    let heads = usize::from(heads);
    if MOST_HEAD < heads {
        return Err(Fault::Count);
    }
    let Some(&goals) = body.get(1) else {
        return Err(Fault::Early);
    };
    let goals = usize::from(goals);
    if goals < 1 || most < goals {
        return Err(Fault::Count);
    }
    let read = read_terms(body, Front::new(2), heads);
    let Ok(head) = read else {
        return Err(read.unwrap_err());
    };
    let read = read_subgoals(body, Front::new(head.at), relations, goals);
    let Ok(end) = read else {
        return Err(read.unwrap_err());
    };
    if end.at < body.len() {
        return Err(Fault::Over);
    }
    Ok(Notes {
        head: head.notes,
        body: end.notes,
    })
}

// What is to be said of a rule's bytes: its layout first, then whether it is safe, then, of a summary, whether its head is distinct variables.
pub fn judge(body: &[u8], relations: &[u8], most: usize, summary: bool) -> Result<(), Defect>
    ensures { Judged relations.now most summary body.now result }
{
    let read = read_rule(body, relations, most);
    let Ok(notes) = read else {
        return Err(Defect::Broken(read.unwrap_err()));
    };
    if !bits::within(notes.head.vars, notes.body.vars) {
        return Err(Defect::Unsafe);
    }
    if summary && !notes.head.plain {
        return Err(Defect::Repeats);
    }
    Ok(())
}
