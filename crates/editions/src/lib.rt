// The editions of terms: what they are, and how one is converted into the other, is defined in specs/. The code is in
// crate `named`.
#![tactic(auto)]

// Document 01's edition, in which a variable counts binders, and the one in which it has a name.
#[derive(Clone, Copy, Debug, PartialEq, Eq)]
pub enum Edition {
    Counts,
    Names,
}
