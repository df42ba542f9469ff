// The pass over a block: both coders at once, the second where the shuffle leads.
ghost use Rattle.std.specs.Prelude.{◌+◌, ◌≤◌, length};
ghost use Rattle.triples.specs.Shuffles.{f};
ghost use Rattle.coding.specs.Streams.{Streams, block_of, shuffled};
ghost use Rattle.coding.specs.Passes.{Ready, Extended};

use crate::trellis::Coder;
use triples::Triple;
use triples::striding::{next, start};

// Writes a tail after k entries.
fn put_tail(k: usize, tail: [u8; 4], list: &mut [u8])
    requires { k + 4 ≤ length list.old }
    ensures { Extended k tail list.old list.new }
{
    list[k..k + 4].copy_from_slice(&tail);
}

// The three streams of a block of bits: the bits, the parities of both coders, and then the twelve bits of the tails, in the standard's order.
// Each address comes from the one before it. Input and lists stay one by one, as C lends them.
pub fn encode(t: Triple, input: &[u8], d0: &mut [u8], d1: &mut [u8], d2: &mut [u8])
    requires { Ready t input.now (length d0.old) (length d1.old) (length d2.old) }
    ensures { Streams t.k (block_of input.now) (shuffled (f t) input.now) d0.old d1.old d2.old d0.new d1.new d2.new }
{
    let mut first = Coder::new();
    let mut second = Coder::new();
    let mut at = start(t);
    for (i, &bit) in input.iter().enumerate() {
        d0[i] = bit;
        d1[i] = first.code(bit);
        d2[i] = second.code(input[at.address]);
        at = next(at);
    }
    let k = input.len();
    let one = first.end();
    let two = second.end();
    put_tail(k, [one[0].x, one[1].z, two[0].x, two[1].z], d0);
    put_tail(k, [one[0].z, one[2].x, two[0].z, two[2].x], d1);
    put_tail(k, [one[1].x, one[2].z, two[1].x, two[2].z], d2);
}
