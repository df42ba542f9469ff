// Why a triple in range is refused.
ghost use Rattle.triples.specs.Shuffles.{triple};
ghost use Rattle.qpp.specs.Promises.{ReasonOf};
ghost use Rattle.qpp.specs.Answers.{reason_of};

use explaining::Pair;
use refusals::Refusal;
use triples::Triple;

// Two positions with the address that they share, and a prime of K.
#[derive(Drop)]
pub struct Explanation {
    pub pair: Pair,
    pub prime: u32,
}

// The first two positions that share an address, and the least prime at whose full power f fails to permute.
pub fn explain(k: u32, f1: u32, f2: u32) -> Result<Explanation, Refusal>
    ensures { ReasonOf (triple k f1 f2) (reason_of result) }
{
    let t = Triple { k, f1, f2 };
    refusals::explainable(t)?;
    Ok(Explanation {
        pair: explaining::first_collision(t),
        prime: explaining::failing_prime(t),
    })
}
