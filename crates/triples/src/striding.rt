// The addresses one after the other, each from the one before, with no division.
ghost use Rattle.std.specs.Prelude.{◌+◌, ◌≤◌, ◌<◌};
ghost use Rattle.numbers.specs.Congruences.{Cong};
ghost use Rattle.triples.specs.Shuffles.{InRange};
ghost use Rattle.triples.specs.Strides.{Sound, At, Follows};

use crate::Triple;

// An address, how far it is down to the next, and how far that goes down each time: f rises by f1 + f2·(2x + 1), and that by 2·f2. It is
// counted down modulo k, since a difference tells of itself whether it went below 0, and a sum is compared with k.
#[derive(Clone, Copy)]
pub struct Stride {
    pub k: usize,
    pub address: usize,
    pub fall: usize,
    pub twice: usize,
}

// The difference of two remainders modulo k.
fn minus(a: usize, b: usize, k: usize) -> usize
    requires { (a < k) × (b < k) × (k ≤ 8192) }
    ensures { Cong k (result + b) a × (result < k) }
{
    if a < b { a + k - b } else { a - b }
}

// At position 0.
pub fn start(t: Triple) -> Stride
    requires { InRange t }
    ensures { At t 0 result }
{
    let k = t.k as usize;
    let f1 = t.f1 as usize;
    let f2 = t.f2 as usize;
    let down1 = minus(0, f1, k);
    let down2 = minus(0, f2, k);
    Stride {
        k,
        address: 0,
        fall: minus(down1, f2, k),
        twice: minus(f2, down2, k),
    }
}

// From a position to the next.
pub fn next(s: Stride) -> Stride
    requires { Sound s }
    ensures { Follows s result }
{
    Stride {
        k: s.k,
        address: minus(s.address, s.fall, s.k),
        fall: minus(s.fall, s.twice, s.k),
        twice: s.twice,
    }
}
