// The addresses in a row.
ghost use Rattle.std.specs.Prelude.{◌≤◌, length};
ghost use Rattle.numbers.specs.Lists.{Written};
ghost use Rattle.triples.specs.Shuffles.{f, InRange};

use crate::Triple;
use crate::striding::{next, start};

// Writes f(0) and the addresses after it to so many places.
pub fn fill(t: Triple, places: usize, list: &mut [u16])
    requires { InRange t × (places ≤ length list.old) }
    ensures { Written (f t) places list.old list.new }
{
    let mut at = start(t);
    for entry in &mut list[..places] {
        *entry = at.address as u16;
        at = next(at);
    }
}
