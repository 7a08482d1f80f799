// Refresh numbers: the lead of a stamp over the need, and which summaries are admitted.
#![tactic(auto)]

ghost use Rattle.std.specs.Prelude.{◌≡◌, ℕ, ◌≤◌, unsigned_abs};
ghost use Rattle.spec.specs.Words.{Rule};
ghost use Rattle.spec.specs.Refresh.{distance, lead, admitted};
ghost use Rattle.spec.specs.LeadSays.{lead_says};

pub mod summaries; // whether a summary of a sound book is admitted

// "the ring 1 to 4,294,967,295"
const RING: u32 = 4294967295;

// "from 0 to 2,147,483,647 as leads"
const HIGHEST_LEAD: u32 = 2147483647;

// How many steps it is round the ring from need to stamp.
fn steps(need: u32, stamp: u32) -> u32
    requires { 1 ≤ need }
    ensures { result ≡ distance need stamp }
{
    let turned = stamp.wrapping_sub(need);
    // The ring has no 0: past its end it is one step fewer.
    if stamp < need { turned - 1 } else { turned }
}

// The lead of a stamp; that of a summary never filled is none.
pub fn lead_of(need: u32, stamp: u32) -> Option<i32>
    ensures { lead_says result ≡ lead need stamp }
{
    if stamp == 0 {
        return None;
    }
    if need == 0 {
        return Some(0);
    }
    let distance = steps(need, stamp);
    if distance <= HIGHEST_LEAD {
        return Some(distance as i32);
    }
    let behind = (RING - distance) as i32;
    Some(-behind)
}

pub fn is_admitted(need: u32, stamp: u32) -> bool
    ensures { (rule : Rule ℕ) → result ≡ admitted need stamp rule }
{
    lead_of(need, stamp).is_some_and(|by| 0 <= by)
}

// A lead without its sign, for programs that print it.
pub fn size_of(lead: i32) -> u64
    ensures { result ≡ unsigned_abs lead }
{
    u64::from(lead.unsigned_abs())
}
