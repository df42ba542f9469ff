// The first two positions that share an address.
ghost use Rattle.permuting.specs.Formulas.{Permutes};
ghost use Rattle.triples.specs.Shuffles.{quadratic, InRange};
ghost use Rattle.maps.specs.Maps.{Sound};
ghost use Rattle.explaining.specs.Reasons.{FirstCollision};
ghost use Rattle.explaining.specs.Searches.{along, Searchable, Met, Earliest};

use maps::Map;
use permuting::marks;
use triples::Triple;

#[derive(Drop)]
pub struct Pair {
    pub y: u32,
    pub x: u32,
    pub address: u32,
}

// The first position that has the address. A `while`: `find` on a range takes a sixth more, since it asks at each position whether it is
// the last.
fn earliest(map: Map, address: usize) -> usize
    requires { Sound map × Met (along map) address }
    ensures { Earliest (along map) address result }
{
    let mut x = 0;
    while maps::place(map, x) != address {
        x += 1;
    }
    x
}

// Goes up through the positions and marks the address of each, until one is marked already, as comes about since two share one. A mark
// does not tell whose it is, so that x is found by going up once more: a table of positions would ask for sixteen times the bytes.
fn search(map: Map, seen: &mut [u8]) -> Pair
    requires { Searchable map seen.old }
    ensures { FirstCollision (along map) result.y result.x result.address }
{
    for y in 0..map.k as usize {
        let address = maps::place(map, y);
        if marks::is_marked(seen, address) {
            return Pair {
                y: y as u32,
                x: earliest(map, address) as u32,
                address: address as u32,
            };
        }
        marks::mark(seen, address);
    }
    unreachable!()
}

// The smallest position whose address an earlier one has too, that one, and the address.
pub fn first_collision(t: Triple) -> Pair
    requires { InRange t × (¬ Permutes (quadratic t)) }
    ensures { FirstCollision (quadratic t) result.y result.x result.address }
{
    let mut seen = [0u8; 1024];
    search(maps::map_of(t), &mut seen)
}
