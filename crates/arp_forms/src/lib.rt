// The almost regular form of a shuffle.
#![tactic(auto)]

ghost use Rattle.std.specs.Prelude.{◌≤◌, length};
ghost use Rattle.triples.specs.Shuffles.{InRange};
ghost use Rattle.numbers.specs.Lists.{Written};
ghost use Rattle.arp_forms.specs.Arp.{shift, Period};
ghost use Rattle.arp_forms.specs.Forms.{FormOf};

use triples::Triple;

// The period Q, of the odd form. The numbers q with K dividing 2·f2·q are the multiples of K/gcd(K, 2·f2); the least of them
// serves unless K fails to divide f2·q², and then its double does. f2·q² is (2·f2·q)·(q/2) where q is even, which K divides,
// and f2·q + (2·f2·q)·((q-1)/2) where q is odd: then f2·q decides, and 32 bits hold it.
fn period(odd: Triple) -> u32
    requires { InRange odd }
    ensures { Period odd result × (result ≤ odd.k) }
{
    let q = odd.k / numbers::gcd(odd.k, 2 * odd.f2);
    if q % 2 == 0 {
        return q;
    }
    if odd.f2 * q % odd.k == 0 {
        return q;
    }
    2 * q
}

// P and Q, and the odd form, which the shifts are made of. `form_of` is no `From`: that would have to make a form of any triple.
#[derive(Clone, Copy)]
pub struct Form {
    pub p: u32,
    pub q: u32,
    pub odd: Triple,
}

pub fn form_of(t: Triple) -> Form
    requires { InRange t }
    ensures { FormOf t result }
{
    let odd = acceptance::odd_form(t);
    Form {
        p: odd.f1,
        q: period(odd),
        odd,
    }
}

// Writes S[0] to S[Q-1]: the addresses of the odd form without its first coefficient.
pub fn shifts(form: Form, list: &mut [u16])
    requires { InRange form.odd × (form.q ≤ length list.old) }
    ensures { Written (shift form.odd) form.q list.old list.new }
{
    let odd = form.odd;
    let squares = Triple {
        k: odd.k,
        f1: 0,
        f2: odd.f2,
    };
    triples::fill(squares, form.q as usize, list);
}
