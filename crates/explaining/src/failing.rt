// The least prime of K at whose full power f fails to permute.
ghost use Rattle.std.specs.Prelude.{◌≤◌};
ghost use Rattle.numbers.specs.Decision.{Decides};
ghost use Rattle.permuting.specs.Formulas.{Permutes};
ghost use Rattle.triples.specs.Shuffles.{quadratic, InRange};
ghost use Rattle.explaining.specs.Reasons.{modulo, LeastFailing};

use triples::Triple;

// Does the quadratic permute modulo m?
fn permutes_modulo(t: Triple, m: u32) -> bool
    requires { (2 ≤ m) × (m ≤ 8192) }
    ensures { Decides (Permutes (quadratic (modulo t m))) result }
{
    acceptance::permutes(Triple {
        k: m,
        f1: t.f1 % m,
        f2: t.f2 % m,
    })
}

// One of the primes fails, since f does not permute, so that the rest does not come to 1.
pub fn failing_prime(t: Triple) -> u32
    requires { InRange t × (¬ Permutes (quadratic t)) }
    ensures { LeastFailing t result }
{
    let mut rest = t.k;
    loop {
        let factor = numbers::first_factor(rest);
        if !permutes_modulo(t, factor.power) {
            return factor.prime;
        }
        rest = factor.rest;
    }
}
