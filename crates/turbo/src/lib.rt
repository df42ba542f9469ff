// The encoder's calls. None trusts its caller, as in `qpp`; `turbo_c` exports them under their names for C.
#![tactic(auto)]

mod encoder;
mod lengths;

pub use encoder::encode;
pub use lengths::{Row, row_of};
