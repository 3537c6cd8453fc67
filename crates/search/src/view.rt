// A register as a call's own tests look at it.
ghost use Rattle.std.specs.Prelude.{◌≡◌, ◌≤◌, length};
ghost use Rattle.register.specs.Records.{header as header_words};
ghost use Rattle.search.specs.Sources.{IsView};

use crate::statement::{Source, in_register};
use records::header::read_header;

// Its length, the words used, the latest day, and where the statements held are looked for.
#[derive(Clone, Copy)]
pub struct View<'a> {
    pub size: usize,
    pub used: usize,
    pub latest: u32,
    pub source: Source<'a>,
}

// The view of a register that is not broken.
pub fn view_of(register: &[u32]) -> View<'_>
    requires { header_words ≤ length register.now }
    ensures { IsView result register.now }
{
    let header = read_header(register);
    View {
        size: register.len(),
        used: header.used,
        latest: header.latest,
        source: in_register(register),
    }
}
