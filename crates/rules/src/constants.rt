// The constants that a signature declares: its list, and where each constant's type stands in it.
#[derive(Clone, Copy)]
pub struct Constants<'a> {
    pub sig: &'a [u32],
    pub table: &'a [u32],
}
