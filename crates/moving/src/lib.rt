// Blocks of any kind of symbol, moved in place by a map. A mover asks the map for a place at each step, and knows nothing else of it. It
// walks one cycle after the other, each from the first place that no walk has left.
//
// Interleaving, each place takes the symbol of the place that the map leads to; the first symbol is in hand, since its place is the first
// to be stored to. Deinterleaving, each symbol goes to the place that the map leads to, and the one that stood there is carried on.
//
// The directions stay two functions: they share the outer loop and differ in each line of the inner one, and a trait of directions would
// have to say those lines one by one, in a definition and a clause, before its two impls could write them.
//
// Map, block and scratch stay three parameters, with no struct around them: the caller lends block and scratch for one call, as C hands
// them over, and keeps them.
#![tactic(auto)]

ghost use Rattle.std.specs.Prelude.{◌/◌, ◌≤◌, ◌<◌, length};
ghost use Rattle.permuting.specs.Bitmap.{Followed};
ghost use Rattle.permuting.specs.Scratch.{Cleared};
ghost use Rattle.permuting.specs.Blocks.{marks_of};
ghost use Rattle.maps.specs.Maps.{to, Sound};

use maps::Map;
use permuting::marks;

mod deinterleaving;
mod interleaving;

pub use deinterleaving::deinterleave;
pub use interleaving::interleave;

// Clears the bytes that hold a mark for each place, and no byte more: the rest of the scratch is the caller's.
pub fn wipe(map: Map, scratch: &mut [u8])
    requires { Sound map × (marks_of map.k ≤ length scratch.old) }
    ensures { Cleared (marks_of map.k) scratch.old scratch.new }
{
    let k = map.k as usize;
    let bytes = k.div_ceil(8);
    marks::clear(scratch, bytes);
}

// Marks the place i and answers where the map leads from it. It is marked as the walk leaves it, so that no later cycle begins there.
pub fn step(map: Map, i: usize, scratch: &mut [u8]) -> usize
    requires { Sound map × (i < map.k) × (i / 8 < length scratch.old) }
    ensures { Followed (to map) i result scratch.old scratch.new }
{
    marks::mark(scratch, i);
    maps::place(map, i)
}
