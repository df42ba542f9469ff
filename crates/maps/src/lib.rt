// A map of positions as the movers follow it: with no division for each place. The coefficients are scaled once, and then a place is
// found by products alone.
#![tactic(auto)]

ghost use Rattle.std.specs.Prelude.{◌≡◌, ◌<◌};
ghost use Rattle.triples.specs.Shuffles.{InRange};
ghost use Rattle.maps.specs.Maps.{to, Sound, MapOf};

use triples::Triple;

// 2 to the 51st: with it no product below leaves 64 bits, and a remainder or a quotient by it is a mask or a shift. Half of it would
// not do: the error below would reach a whole place.
const SCALE: u64 = 2251799813685248;

// The length, and the coefficients in parts of which SCALE make K. That they are small enough, `Sound`, is a clause and no invariant of the type: it
// is part of what `MapOf` promises, and `place` asks for no more.
#[derive(Clone, Copy)]
pub struct Map {
    pub k: u32,
    pub f1: u64,
    pub f2: u64,
}

// The map of a triple. SCALE/K is seldom whole, so that one of the two whole numbers beside it stands for it. Its error, times
// f1·x + f2·x², must make the place too high by less than one, and never too low. The number above does so where f2 is at most half of
// K. Otherwise both coefficients are counted down from K with the number below: too little is taken away, so that the place is again too
// high, and K - f2 is less than half of K. SCALE is K·below + rest, so that SCALE - (K - f1)·below is f1·below + rest. It is no `From`: that would
// have to make a map of any triple.
pub fn map_of(t: Triple) -> Map
    requires { InRange t }
    ensures { MapOf t result }
{
    let k = t.k as u64;
    let f1 = t.f1 as u64;
    let f2 = t.f2 as u64;
    let below = SCALE / k;
    if 2 * f2 <= k {
        let above = below + 1;
        return Map {
            k: t.k,
            f1: f1 * above,
            f2: f2 * above,
        };
    }
    let rest = SCALE % k;
    Map {
        k: t.k,
        f1: f1 * below + rest,
        f2: f2 * below + rest,
    }
}

// Where the map leads from x: f1·x + f2·x² in parts of which SCALE make K, with the multiples of K taken away, and of what is left the
// whole places.
pub fn place(map: Map, x: usize) -> usize
    requires { Sound map × (x < map.k) }
    ensures { (result ≡ to map x) × (result < map.k) }
{
    let at = x as u64;
    let slope = (map.f1 + map.f2 * at) % SCALE;
    let part = slope * at % SCALE;
    (part * map.k as u64 / SCALE) as usize
}
