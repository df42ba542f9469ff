// The calls that answer with numbers alone.
ghost use Rattle.triples.specs.Shuffles.{triple, quadratic};
ghost use Rattle.refusals.specs.Refusals.{Acceptance};
ghost use Rattle.qpp.specs.Promises.{Address, ReciprocalOf, SpreadOf, InverseOf, ReasonOf};
ghost use Rattle.qpp.specs.Walkers.{Started, Stepped};

use qpp::{InverseForm, Reason, Start, Step, Value, Walker};
use refusals::number;

#[unsafe(no_mangle)]
pub extern "C" fn qpp_accept(k: u32, f1: u32, f2: u32) -> u32
    ensures { Acceptance (quadratic (triple k f1 f2)) result }
{
    number(qpp::accept(k, f1, f2))
}

#[unsafe(no_mangle)]
pub extern "C" fn qpp_explain(k: u32, f1: u32, f2: u32) -> Reason
    ensures { ReasonOf (triple k f1 f2) result }
{
    qpp::explain(k, f1, f2).into()
}

#[unsafe(no_mangle)]
pub extern "C" fn qpp_address(k: u32, f1: u32, f2: u32, x: u32) -> Value
    ensures { Address (quadratic (triple k f1 f2)) x result }
{
    qpp::address(k, f1, f2, x).into()
}

#[unsafe(no_mangle)]
pub extern "C" fn qpp_reciprocal(k: u32, f1: u32, f2: u32) -> Value
    ensures { ReciprocalOf (triple k f1 f2) result }
{
    qpp::reciprocal(k, f1, f2).into()
}

#[unsafe(no_mangle)]
pub extern "C" fn qpp_spread(k: u32, f1: u32, f2: u32) -> Value
    ensures { SpreadOf (quadratic (triple k f1 f2)) result }
{
    qpp::spread(k, f1, f2).into()
}

#[unsafe(no_mangle)]
pub extern "C" fn qpp_inverse(k: u32, f1: u32, f2: u32) -> InverseForm
    ensures { InverseOf (triple k f1 f2) result }
{
    qpp::inverse(k, f1, f2).into()
}

#[unsafe(no_mangle)]
pub extern "C" fn qpp_walker_start(k: u32, f1: u32, f2: u32) -> Start
    ensures { Started (triple k f1 f2) result }
{
    qpp::walker_start(k, f1, f2).into()
}

#[unsafe(no_mangle)]
pub extern "C" fn qpp_walker_step(w: Walker) -> Step
    ensures { Stepped w result }
{
    w.step().into()
}
