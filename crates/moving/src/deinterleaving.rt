// Deinterleaving: each symbol goes to the place that the map leads to.
ghost use Rattle.std.specs.Prelude.{length};
ghost use Rattle.permuting.specs.Blocks.{deinterleave, MovedBlock};
ghost use Rattle.maps.specs.Maps.{to};
ghost use Rattle.moving.specs.Readiness.{Ready};

use crate::{step, wipe};
use maps::Map;
use permuting::marks;

// The symbol that stood where another is stored is carried on.
pub fn deinterleave<T: Copy>(map: Map, block: &mut [T], scratch: &mut [u8])
    requires { Ready map (length block.old) (length scratch.old) }
    ensures { (d : T) → MovedBlock deinterleave map.k (to map) d block.old block.new scratch.old scratch.new }
{
    let k = map.k as usize;
    wipe(map, scratch);
    let mut start = marks::first_free(scratch, 0, k);
    // A `while`: where a cycle begins is known only once the one before it is walked. The label names what a closed cycle leaves.
    while start < k {
        let mut carried = block[start];
        let mut i = start;
        'cycle: loop {
            let next = step(map, i, scratch);
            let held = block[next];
            block[next] = carried;
            if next == start {
                break 'cycle;
            }
            carried = held;
            i = next;
        }
        start = marks::first_free(scratch, start + 1, k);
    }
    wipe(map, scratch);
}
