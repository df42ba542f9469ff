// Which triples are shuffles.
#![tactic(auto)]

ghost use Rattle.std.specs.Prelude.{◌≡◌};
ghost use Rattle.numbers.specs.Decision.{Decides};
ghost use Rattle.permuting.specs.Formulas.{Permutes};
ghost use Rattle.triples.specs.Shuffles.{quadratic, InRange, odd_form};

use triples::Triple;

// The same f with an odd f1 wherever K is even and f permutes.
pub fn odd_form(t: Triple) -> Triple
    requires { InRange t }
    ensures { result ≡ odd_form t }
{
    if t.k % 2 != 0 {
        return t;
    }
    if t.f1 % 2 != 0 {
        return t;
    }
    Triple {
        k: t.k,
        f1: (t.f1 + t.k / 2) % t.k,
        f2: (t.f2 + t.k / 2) % t.k,
    }
}

// Does f permute the positions? In the odd form one rule serves every length: f1 shares no factor with K,
// and every prime that divides K divides f2.
pub fn permutes(t: Triple) -> bool
    requires { InRange t }
    ensures { Decides (Permutes (quadratic t)) result }
{
    let odd = odd_form(t);
    if numbers::gcd(odd.f1, odd.k) != 1 {
        return false;
    }
    numbers::absorbs(odd.k, odd.f2)
}
