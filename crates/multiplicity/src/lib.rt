// Multiplicities in 16-bit places, one or two for each record: how one is read and how it is written.
#![tactic(auto)]

ghost use Rattle.std.specs.Prelude.{◌≡◌, ◌<◌, length, get_or, set};
ghost use Rattle.multiplicity.specs.Places.{multiplicities, count_end};

// The multiplicity at place i of the numbers.
#[tactic(auto, using(crate::proofs::Places::length_wide))]
pub fn load(counts: &[u16], i: usize, wide: bool) -> u32
    requires { i < length (multiplicities wide counts.now) }
    ensures { result ≡ get_or (multiplicities wide counts.now) i 0 }
{
    if wide {
        u32::from(counts[2 * i]) + 65536 * u32::from(counts[2 * i + 1])
    } else {
        u32::from(counts[i])
    }
}

// Stores a multiplicity at place i of the numbers.
#[tactic(auto, using(crate::proofs::Places::length_wide))]
pub fn store(counts: &mut [u16], i: usize, v: u32, wide: bool)
    requires { (i < length (multiplicities wide counts.old)) × (v < count_end wide) }
    ensures { multiplicities wide counts.new ≡ set (multiplicities wide counts.old) i v }
{
    if wide {
        counts[2 * i] = (v % 65536) as u16;
        counts[2 * i + 1] = (v / 65536) as u16;
    } else {
        counts[i] = v as u16;
    }
}
