// The witness written as bytes, from places counted from 0.
ghost use Rattle.std.specs.Prelude.{◌≡◌, ◌+◌, ◌*◌};
ghost use Rattle.std.proofs.lemmas.List.Edits.{sets};
ghost use Rattle.witness.specs.WitnessBytes.{pair_bytes, place_bytes, PairsNeeds, PlacesNeeds};

use codes::USES_GOALS;

// Two bytes for each of n places: the use that it lies in and its place there, both counted from 1.
pub fn put_pairs(out: &mut [u8], ks: &[u16; USES_GOALS], own: &[u8], inner: &[u8], n: usize)
    requires { PairsNeeds out.old ks.now own.now inner.now n }
    ensures { out.new ≡ sets out.old 0 (pair_bytes ks.now own.now inner.now 0 n) }
{
    for i in 0..n {
        let k = ks[i] as usize;
        out[2 * i] = own[k] + 1;
        out[2 * i + 1] = inner[k] + 1;
    }
}

// One byte for each of n places, counted from 1, from `at` on.
pub fn put_places(out: &mut [u8], at: usize, ks: &[u16; USES_GOALS], n: usize)
    requires { PlacesNeeds out.old at ks.now n }
    ensures { out.new ≡ sets out.old at (place_bytes ks.now 0 n) }
{
    for i in 0..n {
        out[at + i] = (ks[i] % 255) as u8 + 1;
    }
}
