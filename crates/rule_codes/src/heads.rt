// A rule's head: its codes, and the bindings that send each of its variables to itself.
ghost use Rattle.rule_codes.specs.Heads.{HeadCodes, HeadBindings};
ghost use Rattle.rule_codes.specs.Laid.{Laid};

use crate::places::{head_count, padded_codes};
use crate::tables::base_table;
use codes::{SLOTS, VARIABLE};
use spec::MOST_HEAD;

// The codes of the head's terms, and NONE where they have ended.
pub fn head_codes(body: &[u8]) -> [u64; MOST_HEAD]
    requires { Laid body.now }
    ensures { HeadCodes body.now result }
{
    padded_codes(body, 2, head_count(body), &base_table(VARIABLE))
}

// "head to head place by place": both witnesses begin with each head variable bound to its own code, and nothing else.
pub fn head_bindings(body: &[u8]) -> [u64; SLOTS]
    requires { Laid body.now }
    ensures { HeadBindings body.now result }
{
    let mut bound = [0u64; SLOTS];
    for k in 0..head_count(body) {
        let at = 2 + 5 * k;
        if body[at] == 0 {
            let x = numbers::u32_at(body, at + 1);
            bound[x as usize] = VARIABLE + x as u64;
        }
    }
    bound
}
