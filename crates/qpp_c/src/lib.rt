// The interleaver's calls under their names for C, which include/qpp.h declares. Each is the library's call, with its promise.
#![tactic(auto)]

mod answers;
mod blocks;
mod lists;
