// The walker over the addresses.
ghost use Rattle.std.specs.Prelude.{◌≡◌, ◌↔◌, IsTrue, ◌+◌, ◌%◌, ◌<◌};
ghost use Rattle.triples.specs.Shuffles.{triple};
ghost use Rattle.refusals.specs.Numbers.{number};
ghost use Rattle.refusals.specs.Refusals.{First};
ghost use Rattle.qpp.specs.Walkers.{step_tests, Started, Stepped};
ghost use Rattle.qpp.specs.Steps.{start_of, step_of};

use refusals::Refusal;
use triples::Triple;

// A position of a triple. A walker made by hand may hold anything.
#[repr(C)]
#[derive(Clone, Copy)]
pub struct Walker {
    pub triple: Triple,
    pub at: u32,
}

// The walker of all zeros, which stands beside a refusal.
const NOWHERE: Walker = Walker {
    triple: Triple { k: 0, f1: 0, f2: 0 },
    at: 0,
};

// A walker as C has it, with the number of refusal.
#[repr(C)]
#[derive(Clone, Copy)]
pub struct Start {
    pub number: u32,
    pub walker: Walker,
}

impl From<Result<Walker, Refusal>> for Start {
    ghost from_gives = { λ answer start. start ≡ start_of answer };

    fn from(answer: Result<Walker, Refusal>) -> Start {
        match answer {
            Ok(walker) => Start { number: 0, walker },
            Err(refusal) => Start {
                number: refusal.into(),
                walker: NOWHERE,
            },
        }
    }
}

// A step as C has it: the number, the address and the walker moved on.
#[repr(C)]
#[derive(Clone, Copy)]
pub struct Step {
    pub number: u32,
    pub address: u32,
    pub walker: Walker,
}

impl From<Result<(u32, Walker), Refusal>> for Step {
    ghost from_gives = { λ answer step. step ≡ step_of answer };

    fn from(answer: Result<(u32, Walker), Refusal>) -> Step {
        match answer {
            Ok((address, walker)) => Step {
                number: 0,
                address,
                walker,
            },
            Err(refusal) => Step {
                number: refusal.into(),
                address: 0,
                walker: NOWHERE,
            },
        }
    }
}

// May a step be made from here?
fn standing(w: Walker) -> Result<(), Refusal>
    ensures { First (step_tests w) (number result) }
{
    refusals::range(w.triple)?;
    refusals::position(w.triple.k, w.at)
}

// A step asks this first and the refusal only if there is one, so that a walk that goes on makes none ready: with `?` in this place a compiled step
// takes 68 instructions and not 54.
fn stands(w: Walker) -> bool
    ensures { IsTrue result ↔ First (step_tests w) 0 }
{
    standing(w).is_ok()
}

// The position that comes after `at`: 0 after the last.
fn after(k: u32, at: u32) -> u32
    requires { at < k }
    ensures { result ≡ (at + 1) % k }
{
    let next = at + 1;
    if next == k { 0 } else { next }
}

// A walker at position 0, for a shuffle.
pub fn walker_start(k: u32, f1: u32, f2: u32) -> Result<Walker, Refusal>
    ensures { Started (triple k f1 f2) (start_of result) }
{
    let triple = Triple { k, f1, f2 };
    refusals::accept(triple)?;
    Ok(Walker { triple, at: 0 })
}

impl Walker {
    // The present address, and the walker moved on. Whether the triple permutes is not asked.
    pub fn step(self) -> Result<(u32, Walker), Refusal>
        ensures { Stepped self (step_of result) }
    {
        if stands(self) {
            let triple = self.triple;
            let address = triples::place(triple, self.at as usize);
            let walker = Walker {
                triple,
                at: after(triple.k, self.at),
            };
            return Ok((address as u32, walker));
        }
        Err(standing(self).unwrap_err())
    }
}
