// The calls that write into a lent list.
ghost use Rattle.std.specs.Prelude.{[], ◌∷◌, ◌≤◌, IsOk};
ghost use Rattle.triples.specs.Shuffles.{triple, quadratic, odd_form};
ghost use Rattle.arp_forms.specs.Arp.{Period};
ghost use Rattle.arp_forms.specs.Forms.{FormOf};
ghost use Rattle.refusals.specs.Numbers.{number};
ghost use Rattle.refusals.specs.Refusals.{First, no_list};
ghost use Rattle.qpp.specs.Promises.{AddressList, ArpOf};
ghost use Rattle.qpp.specs.Answers.{arp_form_of};

use arp_forms::Form;
use refusals::Refusal;
use triples::Triple;

// Writes f(0) to f(K-1) into the list.
pub fn addresses(k: u32, f1: u32, f2: u32, list: &mut [u16]) -> Result<(), Refusal>
    ensures { AddressList (quadratic (triple k f1 f2)) list.old (number result) list.new }
{
    let t = Triple { k, f1, f2 };
    refusals::accept(t)?;
    let places = k as usize;
    refusals::entries(places, list.len())?;
    triples::fill(t, places, list);
    Ok(())
}

// May the shifts of a form be written into a list of this size?
fn room(t: Triple, form: Form, size: usize) -> Result<(), Refusal>
    requires { FormOf t form }
    ensures tested { First (no_list (Period (odd_form t)) size ∷ []) (number result) }
    ensures enough { IsOk result → form.q ≤ size }
{
    refusals::entries(form.q as usize, size)
}

// The ARP form: P and Q, and S[0] to S[Q-1] into the list.
pub fn arp(k: u32, f1: u32, f2: u32, list: &mut [u16]) -> Result<(u32, u32), Refusal>
    ensures { ArpOf (triple k f1 f2) list.old (arp_form_of result) list.new }
{
    let t = Triple { k, f1, f2 };
    refusals::accept(t)?;
    let form = arp_forms::form_of(t);
    room(t, form, list.len())?;
    arp_forms::shifts(form, list);
    Ok((form.p, form.q))
}
