// The interleaver's calls. None trusts its caller: each takes numbers and buffers as they come, tests what it is given, and answers or
// refuses by a row of the table. `qpp_c` exports each under its name for C. K, f1 and f2 come one by one, and not as a `Triple`: every entry point
// takes the numbers themselves.
#![tactic(auto)]

mod answers;
mod blocks;
mod explanations;
mod inverses;
mod lists;
mod shuffles;
mod walker;

pub use answers::{ArpForm, InverseForm, Reason, Value};
pub use blocks::{deinterleave, interleave};
pub use explanations::{Explanation, explain};
pub use inverses::inverse;
pub use lists::{addresses, arp};
pub use shuffles::{accept, address, reciprocal, spread};
pub use walker::{Start, Step, Walker, walker_start};
