// The inverse of a shuffle, as a polynomial.
#![tactic(auto)]

mod terms;

ghost use Rattle.std.specs.Prelude.{◌≡◌, drop};
ghost use Rattle.numbers.specs.Reciprocals.{Reciprocal};
ghost use Rattle.triples.specs.Shuffles.{f, Shuffle, odd_form};
ghost use Rattle.polynomials.specs.Inverses.{Inverted};

use std::array;
use triples::Triple;

// a[0] is a1, the coefficient of y. The degree stands beside an array and not in the length of a Vec: the library uses no heap.
#[derive(Drop)]
pub struct Polynomial {
    pub degree: u32,
    pub a: [u32; 13],
}

// The coefficients from the place 1 on.
fn without_constant(p: [u32; 14]) -> [u32; 13]
    ensures { result ≡ drop 1 p }
{
    array::from_fn(|j| p[j + 1])
}

// The reciprocal of f1 in the odd form. That t is a shuffle is a clause here and below, and no type, as that a triple is in range.
pub fn reciprocal(t: Triple) -> u32
    requires { Shuffle t }
    ensures { Reciprocal t.k (odd_form t).f1 result }
{
    let odd = acceptance::odd_form(t);
    numbers::reciprocal(odd.k, odd.f1)
}

// The inverse of f: the series of the odd form, brought inside the limits.
pub fn inverse(t: Triple) -> Polynomial
    requires { Shuffle t }
    ensures { Inverted t.k (f t) result.degree result.a }
{
    let odd = acceptance::odd_form(t);
    let r = numbers::reciprocal(odd.k, odd.f1);
    let mut p = [0u32; 14];
    let top = terms::series(odd.k, odd.f2, r, &mut p);
    polynomials::reduce(odd.k, top, &mut p);
    let degree = polynomials::degree(top, &p);
    let a = without_constant(p);
    Polynomial {
        degree: degree as u32,
        a,
    }
}
