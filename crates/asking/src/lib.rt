// A line that asks: its words, its numbers and its lists, and how they are written. Nothing here knows of a call.
#![tactic(auto)]

pub mod crc;
pub mod lists;
pub mod printing;
pub mod scan;
pub mod words;
