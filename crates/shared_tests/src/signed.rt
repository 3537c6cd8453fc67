// What a call is lent to say what may be permitted.

// A signature list, and n, how many operations it has.
#[derive(Clone, Copy)]
pub struct Signature<'a> {
    pub list: &'a [u32],
    pub operations: u32,
}
