// The turbo code's two coders over a block and its shuffle.
#![tactic(auto)]

mod encoding;
mod trellis;

pub use encoding::encode;
