// The card of a line of text.
#![tactic(auto)]

mod composing;
mod lines;
mod reading;
mod streaming;
mod writing;

pub use composing::{Facts, card};
pub use lines::Line;
pub use reading::read;
pub use streaming::{Fed, feed, finish};
pub use writing::ROOM;
