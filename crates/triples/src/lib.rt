// What a triple of numbers means: where it sends a position.
#![tactic(auto)]

mod listing;
pub mod striding;

ghost use Rattle.std.specs.Prelude.{◌≡◌, ◌<◌};
ghost use Rattle.triples.specs.Shuffles.{f, InRange};

pub use listing::fill;

// A block length and two coefficients, as they came: nothing is known of them. That a triple is in range is a clause of the functions that need
// it, and no type of its own: the definitions and laws are said of a raw triple, and a narrower type would ask more of those who call
// `place`, `odd_form`, `map_of`, `form_of` and the others that the README names.
#[repr(C)]
#[derive(Clone, Copy)]
pub struct Triple {
    pub k: u32,
    pub f1: u32,
    pub f2: u32,
}

// f(x), with f2·x² in 64 bits: it reaches nearly 2 to the 39th.
pub fn place(t: Triple, x: usize) -> usize
    requires { InRange t × (x < t.k) }
    ensures { (result ≡ f t x) × (result < t.k) }
{
    let at = x as u64;
    let first = t.f1 as u64 * at;
    let second = t.f2 as u64 * (at * at);
    ((first + second) % t.k as u64) as usize
}
