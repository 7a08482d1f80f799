// Numbers beside the subgoals of one use.
ghost use Rattle.std.specs.Prelude.{◌≡◌, ◌≤◌, length};
ghost use Rattle.spec.proofs.Lists.Counted.{counted};
ghost use Rattle.search_meaning.specs.Uses.{end_of};

// Of each its place, from 0 on.
pub fn count_up(places: &mut [u8])
    requires { length places.old ≤ 256 }
    ensures { places.new ≡ counted 0 (length places.old) }
{
    for (k, place) in places.iter_mut().enumerate() {
        *place = k as u8;
    }
}

// 1 for the last, 0 for the others.
pub fn mark_end(lasts: &mut [u8])
    requires { 1 ≤ length lasts.old }
    ensures { lasts.new ≡ end_of (length lasts.old) }
{
    let last = lasts.len() - 1;
    lasts.fill(0);
    lasts[last] = 1;
}
