// Code that takes one step of a term's reduction on its words.
#![tactic(auto)]

pub mod redex;
pub mod step;
