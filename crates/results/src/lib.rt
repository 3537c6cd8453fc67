// The results of the rules on words: a node's type, from its children and their types.
#![tactic(auto)]

pub mod apply;
pub mod formed;
pub mod pair;
pub mod sign;
