// For `worked`: the examples on terms. Names, the uses of binders and simplified proofs, a line for each.
#![tactic(auto)]

use logic::word::{APP, LAM, PI, PRIN, SAYS};
use sample::{C0, C2, P, S, SIGN3, V0, longer_proof, proof};
use std::fmt;
use worked_lines::{check_line, from_named_line, heading, simplify_line, to_named_line, uses_line};

// Document 02, slip 6: p with names, and p again.
pub fn names(out: &mut impl fmt::Write) -> fmt::Result {
    heading(out, "The edition with named variables")?;
    let p = proof();
    let mut named = [0u32; 27];
    to_named_line(out, "p", &p, &mut named)?;
    let mut back = [0u32; 27];
    from_named_line(out, "p with names", &named, &mut back)?;
    let mut short = [0u32; 26];
    to_named_line(out, "25, p into 26 words", &p, &mut short)?;
    nearest(out)
}

// "a name means the nearest binder that carries it"; a domain is not in the body.
fn nearest(out: &mut impl fmt::Write) -> fmt::Result {
    let mut words = [0u32; 5];
    let twice = [LAM + 5, P, LAM + 5, V0 + 5, V0 + 5];
    from_named_line(out, "Lam5 P Lam5 V5 V5", &twice, &mut words)?;
    let domain = [PI + 1, V0 + 1, P];
    from_named_line(out, "24, Pi1 V1 P", &domain, &mut words)?;
    let signed = [LAM + 1, S, SIGN3, V0 + 1];
    from_named_line(out, "24, Lam1 S Sign3 V1", &signed, &mut words)
}

// Document 02, slip 8: "Counted from a body's variable 0 on and from 1 on, the two differ by the uses of its binder".
// Of r's proposition Pi S Pi N Pi Says V0 App C2 V1 App C0 V2 the string is used twice, and what it asks for is not.
pub fn uses(out: &mut impl fmt::Write) -> fmt::Result {
    heading(out, "The uses of binders")?;
    let string = [PI, PRIN, PI, SAYS, V0, APP, C2, V0 + 1, APP, C0, V0 + 2];
    uses_line(out, "the body of Pi S, from 0 on", &string, 0)?;
    uses_line(out, "the body of Pi S, from 1 on", &string, 1)?;
    let asked = [APP, C0, V0 + 2];
    uses_line(
        out,
        "the body of Pi Says V0 App C2 V1, from 0 on",
        &asked,
        0,
    )?;
    uses_line(
        out,
        "the body of Pi Says V0 App C2 V1, from 1 on",
        &asked,
        1,
    )?;
    let p = proof();
    uses_line(out, "p, from 0 on", &p, 0)?;
    let signed = [APP, SIGN3, V0, V0];
    uses_line(out, "App Sign3 V0 V0, from 0 on", &signed, 0)?;
    let cut = [APP, C0];
    uses_line(out, "7, App C0", &cut, 0)
}

// Document 02, slip 9: a proof with two parts that are not needed; without them it is p, of the same type.
pub fn simplified(out: &mut impl fmt::Write, register: &[u32; 71]) -> fmt::Result {
    heading(out, "Simplified proofs")?;
    let longer = longer_proof();
    check_line(out, "longer p", register, &longer)?;
    let mut output = [0u32; 27];
    simplify_line(
        out,
        "26, longer p in one step",
        register,
        &longer,
        1,
        &mut output,
    )?;
    let mut short = [0u32; 26];
    simplify_line(
        out,
        "25, longer p into 26 words",
        register,
        &longer,
        2,
        &mut short,
    )?;
    simplify_line(out, "longer p", register, &longer, 2, &mut output)?;
    check_line(out, "its result", register, &output)?;
    let p = proof();
    simplify_line(out, "p", register, &p, 0, &mut output)
}
