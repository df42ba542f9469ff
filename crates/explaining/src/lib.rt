// Why a triple in range is no shuffle: two positions share an address, and f fails to permute modulo a prime power of K.
#![tactic(auto)]

mod colliding;
mod failing;

pub use colliding::{Pair, first_collision};
pub use failing::failing_prime;
