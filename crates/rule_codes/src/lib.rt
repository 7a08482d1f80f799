// A rule's bytes as codes: terms, subgoals, bodies, heads, uses.
#![tactic(auto)]

ghost use Rattle.rule_codes.specs.Laid.{LaidOver};

pub mod ascending; // codes in order, each once
mod bodies; // a body as a source and as a target
pub mod heads; // a head's codes and bindings
pub mod places; // counts, and the codes of terms where they stand
mod questions; // a question's terms in order
mod subgoals; // a body's subgoals, nine codes each
mod tables; // the codes of a rule's variables
mod uses; // a summary's body in one use

// A rule's bytes, and the relations that its subgoals are of: the bytes are the layout of a rule over them.
#[derive(Clone, Copy)]
pub struct Body<'a> {
    pub bytes: &'a [u8],
    pub relations: &'a [u8],
    ghost laid: { ∥ LaidOver relations.now bytes.now ∥₁ },
}
