// The spread of a shuffle.
#![tactic(auto)]

ghost use Rattle.std.specs.Prelude.{◌+◌, ◌<◌, replicate};
ghost use Rattle.triples.specs.Shuffles.{f, InRange};
ghost use Rattle.spreading.specs.Spreads.{Spread};
ghost use Rattle.spreading.specs.Minima.{Least, entry, pair, Addresses, Round, Roomy};

use triples::Triple;

// The distance round n of the closest addresses at positions d apart, over so many pairs. Round the circle the closest are at the least or at
// the greatest distance along the line, and to keep both takes less than to go round for each pair.
fn closest(list: &[u16], n: u16, d: usize, pairs: usize) -> u16
    requires { Addresses list.now n (pairs + d) }
    ensures { Least (pair list.now n d) pairs n result }
{
    let mut least = n;
    let mut most = 0;
    // By index: over a `zip` of two parts of the list each distance takes some twenty instructions more.
    for i in 0..pairs {
        let way = list[i].abs_diff(list[i + d]);
        least = least.min(way);
        most = most.max(way);
    }
    (n - most).min(least)
}

// The spread of n addresses, going up from 1: it stops at the first distance that settles it. No two are further apart than half of n. Behind its
// places the list goes on from its start, by one entry for each distance, so that no pair crosses an end.
fn search(list: &mut [u16], n: u16, places: usize) -> u16
    requires { Round list.old n places }
    ensures { Spread (entry list.old) n result }
{
    let mut least = n / 2;
    let mut s = 1;
    // A `while`: `least` falls inside the loop, so that no range can be made before it, and one up to n / 2 asks twice at each distance.
    while s < least {
        let d = s as usize;
        let end = places + d - 1;
        list[end] = list[end - n as usize];
        least = closest(list, n, d, places).min(least);
        if least <= s {
            return s;
        }
        s += 1;
    }
    s
}

// The addresses are listed in the lent table first, and the first of them again up to a multiple of 4: pairs are compared by fours, and none is
// left over.
fn measure(t: Triple, table: &mut [u16]) -> u16
    requires { InRange t × Roomy table.old t.k }
    ensures { Spread (f t) t.k result }
{
    // By hand: behind `next_multiple_of` the compiler does not see that 4 divides it, and looks for what is left over.
    let places = (t.k as usize + 3) / 4 * 4;
    triples::fill(t, places, table);
    search(table, t.k as u16, places)
}

// The same with a table of its own.
fn measured<const ROOM: usize>(t: Triple) -> u16
    requires { InRange t × Roomy (replicate ROOM 0) t.k × (ROOM < 65536) }
    ensures { Spread (f t) t.k result }
{
    measure(t, &mut [0u16; ROOM])
}

// The spread. A short shuffle has a short table, which is cleared sooner.
pub fn spread(t: Triple) -> u16
    requires { InRange t }
    ensures { Spread (f t) t.k result }
{
    match t.k {
        ..=56 => measured::<64>(t),
        ..=256 => measured::<272>(t),
        _ => measured::<8283>(t),
    }
}
