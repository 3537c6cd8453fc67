// What a derivation answers: the number of the type's words, and where the term ends.
#[derive(Clone, Copy)]
pub struct Typed {
    pub words: usize,
    pub end: usize,
}
