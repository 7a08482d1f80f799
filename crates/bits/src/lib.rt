// Sets of the numbers 0 to 63 in one word, a bit for each.
#![tactic(auto)]

ghost use Rattle.std.specs.Prelude.{◌≡◌, ◌<◌, ◌≤◌};
ghost use Rattle.std.specs.Int.Bits.{bit_or};
ghost use Rattle.bits.specs.Sets.{with, without, first, has, below32, Within, Meets};

// The numbers below 32.
const LOW: u64 = u32::MAX as u64;

// The set with one number more.
pub fn add(set: u64, x: u32) -> u64
    requires { x < 64 }
    ensures { result ≡ with set x }
{
    set | (1u64 << x)
}

// The set with one number less.
pub fn remove(set: u64, x: u32) -> u64
    requires { x < 64 }
    ensures { result ≡ without set x }
{
    add(set, x) ^ (1u64 << x)
}

// The numbers below n.
pub fn below(n: u32) -> u64
    requires { n ≤ 64 }
    ensures { result ≡ first n }
{
    if n < 64 {
        return (1u64 << n) - 1;
    }
    u64::MAX
}

// Whether every member of the first set is one of the second.
pub fn within(a: u64, b: u64) -> bool
    ensures { Within a b result }
{
    (a | b) == b
}

// Whether the number is a member.
pub fn holds(set: u64, x: u32) -> bool
    requires { x < 64 }
    ensures { result ≡ has set x }
{
    (set >> x) % 2 == 1
}

// The members of either set.
pub fn join(a: u64, b: u64) -> u64
    ensures { result ≡ bit_or a b }
{
    a | b
}

// Whether the sets have a member in common.
pub fn meets(a: u64, b: u64) -> bool
    ensures { Meets a b result }
{
    a & b != 0
}

// The members below 32.
pub fn low(set: u64) -> u64
    ensures { result ≡ below32 set }
{
    set & LOW
}
