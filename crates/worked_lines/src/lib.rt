// A call of the register and its line: what the example is, the call, and what it gives.
#![tactic(auto)]

ghost use Rattle.std.specs.Prelude.{◌≡◌};
ghost use Rattle.register.specs.Records.{ask_of};
ghost use Rattle.records.specs.Entries.{asked};

use batch_tests::ItemRefusal;
use logic::limit::LEAST_WORKSPACE;
use logic::refusal::Refusal;
use mark_list::{MARK_LIST, MOST_MARKS};
use named::convert::{from_named, to_named};
use records::entry::{Ask, Statement};
use records::format::{
    COUNT, HEADER, LATEST, MARK_COUNT, MARK_LATEST, MARK_LIST_HEAD, MARK_NUMBER, MARK_USED,
    MARK_WORDS, Mode, STANDING, USED,
};
use sample::{FROM, OPERATIONS, TODAY, UNTIL, signature};
use say::Said;
use shared_tests::signed::Signature;
use std::fmt;
use uses::uses;

// Standard output. What it does not take is let go, so that the examples run to their end.
#[derive(Clone, Copy)]
pub struct Stdout;

impl fmt::Write for Stdout {
    fn write_str(&mut self, text: &str) -> fmt::Result {
        io::write_all(1, text.as_bytes());
        Ok(())
    }
}

// Words in hexadecimal, a blank before each.
#[derive(Clone, Copy)]
struct Words<'a>(&'a [u32]);

impl fmt::Display for Words<'_> {
    fn fmt<W: fmt::Write>(&self, f: &mut fmt::Formatter<W>) -> fmt::Result {
        for word in self.0 {
            write!(f, " {word:08x}")?;
        }
        Ok(())
    }
}

// What a call answers, as its line has it: 0 0, or the refusal's number and place.
#[derive(Clone, Copy)]
struct Told(Result<(), Refusal>);

impl fmt::Display for Told {
    fn fmt<W: fmt::Write>(&self, f: &mut fmt::Formatter<W>) -> fmt::Result {
        match self.0 {
            Ok(()) => write!(f, "0 0"),
            Err(refusal) => write!(f, "{} {}", u32::from(refusal.reason), refusal.place),
        }
    }
}

pub fn heading(out: &mut impl fmt::Write, text: &str) -> fmt::Result {
    writeln!(out, "{text}")
}

fn answer_line(
    out: &mut impl fmt::Write,
    example: &str,
    call: &str,
    answer: Result<(), Refusal>,
) -> fmt::Result {
    writeln!(out, "{example}: {call} {}", Told(answer))
}

// A signature list with the sample's operations, as calls here are lent it.
pub fn signed(list: &[u32]) -> Signature<'_>
    ensures list { result.list.now ≡ list.now }
    ensures operations { result.operations ≡ 1 }
{
    Signature {
        list,
        operations: OPERATIONS,
    }
}

// An opening in a mode, with the list of marks that is kept beside the register.
pub fn open_line_as(
    out: &mut impl fmt::Write,
    example: &str,
    register: &mut [u32],
    mode: u32,
    marks: &mut [u32],
    rules: &[u32],
) -> fmt::Result {
    let sig = signature();
    let mut ws = [0u32; LEAST_WORKSPACE];
    let opened = open::open(signed(&sig), mode, register, marks, rules, &mut ws);
    answer_line(out, example, "open", opened)
}

// For release, where no mark is ever set.
pub fn open_line(
    out: &mut impl fmt::Write,
    example: &str,
    register: &mut [u32],
    rules: &[u32],
) -> fmt::Result {
    let mut marks = [0u32; MARK_LIST];
    open_line_as(
        out,
        example,
        register,
        Mode::Release as u32,
        &mut marks,
        rules,
    )
}

pub fn mark_line(
    out: &mut impl fmt::Write,
    example: &str,
    register: &[u32],
    marks: &mut [u32],
    number: u32,
) -> fmt::Result {
    let marked = marks::mark(register, marks, number);
    answer_line(out, example, "mark", marked)
}

pub fn return_line(
    out: &mut impl fmt::Write,
    example: &str,
    register: &mut [u32],
    marks: &mut [u32],
    number: u32,
) -> fmt::Result {
    let returned = marks::return_to(register, marks, number);
    answer_line(out, example, "return", returned)
}

// A mark that stands, and what it keeps.
fn print_mark(out: &mut impl fmt::Write, marks: &[u32; MARK_LIST], i: usize) -> fmt::Result {
    if MOST_MARKS <= i {
        return Ok(());
    }
    let at = MARK_LIST_HEAD + MARK_WORDS * i;
    write!(
        out,
        ", mark {} used {} records {} day {}",
        marks[at + MARK_NUMBER],
        marks[at + MARK_USED],
        marks[at + MARK_COUNT],
        marks[at + MARK_LATEST]
    )
}

// How many marks stand, and the first two of them.
pub fn marks_line(out: &mut impl fmt::Write, marks: &[u32; MARK_LIST]) -> fmt::Result {
    let standing = marks[STANDING];
    write!(out, "standing {standing}")?;
    if 0 < standing {
        print_mark(out, marks, 0)?;
    }
    if 1 < standing {
        print_mark(out, marks, 1)?;
    }
    writeln!(out)
}

// A say for the days of the sample, on a day.
pub fn say_line_on(
    out: &mut impl fmt::Write,
    example: &str,
    register: &mut [u32],
    day: u32,
    principal: u32,
    proposition: &[u32],
) -> fmt::Result {
    let sig = signature();
    let mut ws = [0u32; LEAST_WORKSPACE];
    let statement = Statement {
        principal,
        first: FROM,
        last: UNTIL,
        words: proposition,
    };
    match say::say(signed(&sig), register, day, statement, &mut ws) {
        Ok(Said::Added) => writeln!(out, "{example}: say 0 0 added"),
        Ok(Said::Held) => writeln!(out, "{example}: say 0 0 held"),
        Err(refusal) => answer_line(out, example, "say", Err(refusal)),
    }
}

pub fn say_line(
    out: &mut impl fmt::Write,
    example: &str,
    register: &mut [u32],
    principal: u32,
    proposition: &[u32],
) -> fmt::Result {
    say_line_on(out, example, register, TODAY, principal, proposition)
}

// What the sample asks on a day: operation 0, extract 7 and delivery 9, with a proof.
pub fn sample_ask(day: u32, proof: &[u32]) -> Ask<'_>
    ensures { asked result ≡ ask_of 0 7 9 day proof.now }
{
    Ask {
        operation: 0,
        extract: 7,
        delivery: 9,
        day,
        proof,
    }
}

pub fn request_line(
    out: &mut impl fmt::Write,
    example: &str,
    register: &mut [u32],
    ask: Ask,
) -> fmt::Result {
    let sig = signature();
    let mut ws = [0u32; LEAST_WORKSPACE];
    let granted = request::request(signed(&sig), register, ask, &mut ws);
    answer_line(out, example, "request", granted)
}

// The index after the answer, that of the first item that fails.
pub fn batch_line(
    out: &mut impl fmt::Write,
    example: &str,
    register: &mut [u32],
    items: &[u32],
) -> fmt::Result {
    let sig = signature();
    let mut ws = [0u32; LEAST_WORKSPACE];
    let (told, index) = match batch::batch(signed(&sig), register, TODAY, items, &mut ws) {
        Ok(()) => (Ok(()), 0),
        Err(ItemRefusal { index, refusal }) => (Err(refusal), index),
    };
    writeln!(out, "{example}: batch {} index {index}", Told(told))
}

// A check with a signature, a day and a workspace of its own.
pub fn check_line_with(
    out: &mut impl fmt::Write,
    example: &str,
    signature: Signature,
    register: &[u32],
    day: u32,
    term: &[u32],
    ws: &mut [u32],
) -> fmt::Result {
    match check_call::check(signature, register, day, term, ws) {
        Ok(found) => writeln!(out, "{example}: check 0 0{}", Words(found)),
        Err(refusal) => answer_line(out, example, "check", Err(refusal)),
    }
}

pub fn check_line_on(
    out: &mut impl fmt::Write,
    example: &str,
    register: &[u32],
    day: u32,
    term: &[u32],
) -> fmt::Result {
    let sig = signature();
    let mut ws = [0u32; LEAST_WORKSPACE];
    check_line_with(out, example, signed(&sig), register, day, term, &mut ws)
}

pub fn check_line(
    out: &mut impl fmt::Write,
    example: &str,
    register: &[u32],
    term: &[u32],
) -> fmt::Result {
    check_line_on(out, example, register, TODAY, term)
}

// The kind and the body after the answer, and no more than the answer where the read is refused.
pub fn read_line(
    out: &mut impl fmt::Write,
    example: &str,
    register: &[u32],
    record: usize,
) -> fmt::Result {
    match read_call::read(register, record) {
        Ok(found) => {
            writeln!(
                out,
                "{example}: read 0 0 kind {} body{}",
                found.kind as u32,
                Words(found.body)
            )
        }
        Err(refusal) => answer_line(out, example, "read", Err(refusal)),
    }
}

// The output after the answer, and no more than the answer where the call is refused.
fn output_line(
    out: &mut impl fmt::Write,
    example: &str,
    call: &str,
    written: Result<usize, Refusal>,
    output: &[u32],
) -> fmt::Result {
    match written {
        Ok(words) => writeln!(out, "{example}: {call} 0 0 words {words}{}", Words(output)),
        Err(refusal) => answer_line(out, example, call, Err(refusal)),
    }
}

pub fn to_named_line(
    out: &mut impl fmt::Write,
    example: &str,
    term: &[u32],
    output: &mut [u32],
) -> fmt::Result {
    let written = to_named(term, output);
    output_line(out, example, "to_named", written, output)
}

pub fn from_named_line(
    out: &mut impl fmt::Write,
    example: &str,
    term: &[u32],
    output: &mut [u32],
) -> fmt::Result {
    let written = from_named(term, output);
    output_line(out, example, "from_named", written, output)
}

pub fn load_line(
    out: &mut impl fmt::Write,
    example: &str,
    seed: u32,
    count: u32,
    output: &mut [u32],
) -> fmt::Result {
    let written = load::load(seed, count, output);
    output_line(out, example, "load", written, output)
}

// How many variables of a term stand free, from a number on.
pub fn uses_line(out: &mut impl fmt::Write, example: &str, term: &[u32], from: u32) -> fmt::Result {
    match uses(term, from) {
        Ok(free) => writeln!(out, "{example}: uses 0 0 count {free}"),
        Err(refusal) => answer_line(out, example, "uses", Err(refusal)),
    }
}

// The steps taken and the output after the answer, and no more than the answer where it is refused.
pub fn simplify_line(
    out: &mut impl fmt::Write,
    example: &str,
    register: &[u32],
    term: &[u32],
    budget: usize,
    output: &mut [u32],
) -> fmt::Result {
    let sig = signature();
    let mut ws = [0u32; LEAST_WORKSPACE];
    match simplify::simplify(signed(&sig), register, TODAY, term, budget, output, &mut ws) {
        Ok(done) => writeln!(
            out,
            "{example}: simplify 0 0 steps {} words {}{}",
            done.steps,
            done.words,
            Words(output)
        ),
        Err(refusal) => answer_line(out, example, "simplify", Err(refusal)),
    }
}

// The header of a register: its words used, its records and its latest day.
pub fn counts_line(out: &mut impl fmt::Write, register: &[u32]) -> fmt::Result {
    if register.len() < HEADER {
        return Ok(());
    }
    writeln!(
        out,
        "used {} records {} day {}",
        register[USED], register[COUNT], register[LATEST]
    )
}
