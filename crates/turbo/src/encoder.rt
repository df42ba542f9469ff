// The encoder: the three streams of a block of bits.
ghost use Rattle.std.specs.Prelude.{◌≤◌};
ghost use Rattle.refusals.specs.Numbers.{number};
ghost use Rattle.refusals.specs.Refusals.{First};
ghost use Rattle.turbo.specs.Promises.{lent_tests, Encodes};

use crate::lengths::row_of;
use refusals::Refusal;

// May this input be coded into lists of these lengths?
fn lendable(k: u32, input: &[u8], n0: usize, n1: usize, n2: usize) -> Result<(), Refusal>
    requires { k ≤ 6144 }
    ensures { First (lent_tests k input.now n0 n1 n2) (number result) }
{
    refusals::bits(k, input)?;
    let entries = k as usize + 4; // a tail of four after the block
    refusals::entries(entries, n0)?;
    refusals::entries(entries, n1)?;
    refusals::entries(entries, n2)
}

// Writes the streams of a block, each K bits and a tail of four. Input and lists come one by one, as C lends them.
pub fn encode(
    k: u32,
    input: &[u8],
    d0: &mut [u8],
    d1: &mut [u8],
    d2: &mut [u8],
) -> Result<(), Refusal>
    ensures { Encodes k input.now d0.old d1.old d2.old (number result) d0.new d1.new d2.new }
{
    let shuffle = row_of(k)?;
    lendable(k, input, d0.len(), d1.len(), d2.len())?;
    coding::encode(shuffle, input, d0, d1, d2);
    Ok(())
}
