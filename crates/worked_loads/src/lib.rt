// For `worked`: loads of trial requests, a line for each.
#![tactic(auto)]

use load::{FRONT, NUMBERS, REQUEST_WORDS};
use records::entry::Ask;
use sample::{TODAY, rules};
use std::fmt;
use worked_lines::{counts_line, heading, load_line, open_line, request_line, say_line};

// "every say succeeds and every request of operation 0 after its say is granted".
fn pass(
    out: &mut impl fmt::Write,
    register: &mut [u32],
    drawn: [u32; REQUEST_WORDS],
) -> fmt::Result {
    say_line(out, "its say", register, drawn[1], &drawn[NUMBERS..FRONT])?;
    let ask = Ask {
        operation: 0,
        extract: drawn[0],
        delivery: drawn[2],
        day: TODAY,
        proof: &drawn[FRONT..],
    };
    request_line(out, "its request", register, ask)?;
    counts_line(out, register)
}

// Document 02, slip 11: what is refused, and two loads of a request each, on a register with room for both.
pub fn loads(out: &mut impl fmt::Write) -> fmt::Result {
    heading(out, "Loads, on a register of 120 words")?;
    let mut drawn = [0u32; REQUEST_WORDS];
    load_line(out, "29, a load of 0", 1, 0, &mut drawn)?;
    load_line(out, "29, a load of 257", 1, 257, &mut drawn)?;
    load_line(out, "25, a load of 2 into 33 words", 1, 2, &mut drawn)?;
    let list = rules();
    let mut register = [0u32; 120];
    open_line(out, "rule r", &mut register, &list)?;
    load_line(out, "a load of 1 from seed 1", 1, 1, &mut drawn)?;
    pass(out, &mut register, drawn)?;
    load_line(
        out,
        "a load of 1, where 1 replaces principal 0",
        4150723358,
        1,
        &mut drawn,
    )?;
    pass(out, &mut register, drawn)
}
