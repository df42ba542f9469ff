// Marks in bytes that a caller lends, for work that must know which places of a block it has been to.
#![tactic(auto)]

pub mod marks;
