// Makes document 01's examples, and those of document 02's requests that have landed, through the calls of the
// register, and prints a line for each.
#![tactic(auto)]

use logic::limit::LEAST_WORKSPACE;
use logic::word::APP;
use sample::{
    A0, A3, C0, C2, C9, P, RET, S, S7, SIGN3, SIGN4, TODAY, V0, deep, escaping,
    items_in_other_order, items_in_turn, proof, receipt, rules, signature, statement,
    statement_254, statement_255, trust, trusting,
};
use shared_tests::signed::Signature;
use std::fmt;
use worked_lines::{
    Stdout, batch_line, check_line, check_line_on, check_line_with, counts_line, heading,
    open_line, read_line, request_line, sample_ask, say_line, say_line_on, signed,
};
use worked_terms::{names, simplified, uses};
use worked_trials::{released, trials};

// "Rule r, a3 says App C2 s7": how each register here begins.
fn begin(out: &mut impl fmt::Write, register: &mut [u32]) -> fmt::Result {
    let list = rules();
    open_line(out, "rule r", register, &list)?;
    let said = statement();
    say_line(out, "a3 says App C2 s7", register, 3, &said)?;
    counts_line(out, register)
}

// The records, and the proof once more.
fn read_back(out: &mut impl fmt::Write, register: &[u32]) -> fmt::Result {
    read_line(out, "record 0", register, 0)?;
    read_line(out, "record 1", register, 1)?;
    read_line(out, "record 2", register, 2)?;
    read_line(out, "record 3", register, 3)?;
    read_line(out, "record 4", register, 4)?;
    let p = proof();
    check_line(out, "p", register, &p)
}

// "The worked counts become 30, 71 and 70".
fn grant(out: &mut impl fmt::Write, register: &mut [u32; 71]) -> fmt::Result {
    heading(out, "A register of 71 words")?;
    begin(out, register)?;
    let said = statement();
    say_line(out, "a3 says it again", register, 3, &said)?;
    counts_line(out, register)?;
    let p = proof();
    request_line(
        out,
        "request 0, 7, 9 with p",
        register,
        sample_ask(TODAY, &p),
    )?;
    counts_line(out, register)?;
    read_back(out, register)
}

// One word less gives 16.
fn full(out: &mut impl fmt::Write, register: &mut [u32; 70]) -> fmt::Result {
    heading(out, "A register of 70 words")?;
    begin(out, register)?;
    let p = proof();
    request_line(
        out,
        "request 0, 7, 9 with p",
        register,
        sample_ask(TODAY, &p),
    )?;
    counts_line(out, register)
}

// "A say of 254 words may pass; of 255 is 12."
fn long_says(out: &mut impl fmt::Write, register: &mut [u32; 300]) -> fmt::Result {
    heading(out, "A register of 300 words")?;
    begin(out, register)?;
    let even = statement_254();
    say_line(out, "a3 says 254 words", register, 3, &even)?;
    counts_line(out, register)?;
    let odd = statement_255();
    say_line(out, "a3 says 255 words", register, 3, &odd)?;
    counts_line(out, register)
}

// The rows of the refusal table for what is lent beside the term.
fn lent_refusals(out: &mut impl fmt::Write, register: &[u32]) -> fmt::Result {
    let sig = signature();
    let term = [P];
    let mut short = [0u32; LEAST_WORKSPACE - 1];
    check_line_with(
        out,
        "1, a workspace of 12287 words",
        signed(&sig),
        register,
        TODAY,
        &term,
        &mut short,
    )?;
    let words = [4, 0, 0];
    check_line(out, "2, a register of 3 words", &words, &term)?;
    let broken = [9, 0, 0, 0, 0, 0, 0, 0];
    check_line(out, "3, 8 words with word 0 = 9", &broken, &term)?;
    let bad = [1, S];
    let mut ws = [0u32; LEAST_WORKSPACE];
    check_line_with(
        out,
        "4, a signature 1, then S",
        signed(&bad),
        register,
        TODAY,
        &term,
        &mut ws,
    )?;
    let none = Signature {
        list: &sig,
        operations: 0,
    };
    check_line_with(out, "5, n = 0", none, register, TODAY, &term, &mut ws)
}

// The rows for a term that has no type.
fn term_refusals(out: &mut impl fmt::Write, register: &[u32]) -> fmt::Result {
    let missing = [APP, C0];
    check_line(out, "6, no words", register, &missing[..0])?;
    check_line(out, "7, App C0", register, &missing)?;
    let nested = deep();
    check_line(out, "8, Pi S 32 times and P, 33 deep", register, &nested)?;
    let unbound = [V0];
    check_line(out, "9, V0", register, &unbound)?;
    let unknown = [C9];
    check_line(out, "10, C9", register, &unknown)?;
    let string = [RET, A0, S7];
    check_line(out, "11, Ret a0 s7", register, &string)
}

// Document 02, slip 2: the three that 11 was given for, and "a Bind whose body another principal says".
fn separate_refusals(out: &mut impl fmt::Write, register: &[u32]) -> fmt::Result {
    let string = [APP, S7, V0];
    check_line(out, "18, App s7 V0", register, &string)?;
    let principal = [APP, C0, A3];
    check_line(out, "19, App C0 a3", register, &principal)?;
    let escape = escaping(A3);
    check_line(out, "20, the escaping proof", register, &escape)?;
    let another = escaping(A0);
    check_line(out, "11, the same said by a0", register, &another)
}

// The rows of the refusal table, in its order; beside 11 stand document 02's. The registers of 70 words and of 4
// records are those that the examples before left.
fn refusals(
    out: &mut impl fmt::Write,
    register: &mut [u32; 64],
    short: &mut [u32; 70],
    granted: &[u32; 71],
) -> fmt::Result {
    heading(out, "The refusal table, on a register of 64 words")?;
    begin(out, register)?;
    lent_refusals(out, register)?;
    let said = statement();
    say_line_on(
        out,
        "23, a3 says App C2 s7 on day 14",
        register,
        14,
        3,
        &said,
    )?;
    say_line(out, "15, a0 says App C2 s7", register, 0, &said)?;
    term_refusals(out, register)?;
    separate_refusals(out, register)?;
    let long = statement_255();
    say_line(out, "12, a3 says 255 words", register, 3, &long)?;
    let another = [SIGN3, APP, C2, S7];
    request_line(
        out,
        "13, Sign3 App C2 s7",
        register,
        sample_ask(TODAY, &another),
    )?;
    let never = [SIGN4, APP, C2, S7];
    check_line(out, "14, Sign4 App C2 s7, never said", register, &never)?;
    check_line_on(out, "22, Sign3 App C2 s7 on day 19", register, 19, &another)?;
    let p = proof();
    request_line(out, "16, p on 70 words", short, sample_ask(TODAY, &p))?;
    read_line(out, "17, record 4 of 4", granted, 4)?;
    counts_line(out, register)
}

// Checks the proof that rests on a4's trust and on what a5 says.
fn trusting_line(out: &mut impl fmt::Write, example: &str, register: &[u32]) -> fmt::Result {
    let derived = trusting();
    check_line(out, example, register, &derived)
}

// Document 02, slip 1: a4 trusts what a5 says of homes, whatever the property.
fn trusts(out: &mut impl fmt::Write, register: &mut [u32; 64]) -> fmt::Result {
    heading(out, "Trust in a whole property, on a register of 64 words")?;
    begin(out, register)?;
    trusting_line(out, "the trust not said", register)?;
    let stated = trust();
    say_line(out, "a4 says the trust", register, 4, &stated)?;
    trusting_line(out, "App C2 s7 not said", register)?;
    let said = statement();
    say_line(out, "a5 says App C2 s7", register, 5, &said)?;
    trusting_line(out, "both said", register)?;
    counts_line(out, register)
}

// Requests on days that no statement covers, or before the latest.
fn late_requests(out: &mut impl fmt::Write, register: &mut [u32]) -> fmt::Result {
    let p = proof();
    request_line(out, "request on day 14", register, sample_ask(14, &p))?;
    request_line(out, "request on day 19", register, sample_ask(19, &p))?;
    request_line(out, "request on day 21", register, sample_ask(21, &p))
}

// A say that adds nothing sets the latest day.
fn day_moves(out: &mut impl fmt::Write, register: &mut [u32]) -> fmt::Result {
    let said = statement();
    say_line_on(out, "a3 says it again on day 16", register, 16, 3, &said)?;
    counts_line(out, register)?;
    let p = proof();
    request_line(out, "request on day 15", register, sample_ask(TODAY, &p))?;
    request_line(out, "request on day 18", register, sample_ask(18, &p))?;
    counts_line(out, register)
}

// The receipt "holds from the day of the grant just before it"; the proof rests on what a3 says.
fn check_days(out: &mut impl fmt::Write, register: &[u32]) -> fmt::Result {
    let state = receipt();
    check_line_on(out, "the receipt on day 17", register, 17, &state)?;
    check_line_on(out, "the receipt on day 18", register, 18, &state)?;
    check_line_on(
        out,
        "the receipt on day 4294967295",
        register,
        4294967295,
        &state,
    )?;
    let p = proof();
    check_line_on(out, "p on day 12", register, 12, &p)?;
    check_line_on(out, "p on day 19", register, 19, &p)
}

// Document 02, slip 5: r holds from day 10 to day 20, what a3 says from day 12 to day 18.
fn lapses(out: &mut impl fmt::Write, register: &mut [u32; 71]) -> fmt::Result {
    heading(out, "Statements that lapse, on a register of 71 words")?;
    begin(out, register)?;
    late_requests(out, register)?;
    day_moves(out, register)?;
    check_days(out, register)
}

// Document 02, slip 7: a batch of two requests, the second with a proof that uses the receipt of the first; before it
// the same in the other order.
fn batches(out: &mut impl fmt::Write, register: &mut [u32; 119]) -> fmt::Result {
    heading(out, "Batches of two, on a register of 119 words")?;
    begin(out, register)?;
    let other = items_in_other_order();
    batch_line(out, "the second first", register, &other)?;
    counts_line(out, register)?;
    let items = items_in_turn();
    batch_line(out, "two in turn", register, &items)?;
    counts_line(out, register)?;
    read_line(out, "record 5", register, 5)
}

// "The batch grants all or changes no word": there is room for the first of the two alone.
fn short_batch(out: &mut impl fmt::Write, register: &mut [u32; 118]) -> fmt::Result {
    heading(out, "A batch of two, on a register of 118 words")?;
    begin(out, register)?;
    let items = items_in_turn();
    batch_line(out, "two in turn", register, &items)?;
    counts_line(out, register)
}

fn run(out: &mut impl fmt::Write) -> fmt::Result {
    let mut granted = [0u32; 71];
    grant(out, &mut granted)?;
    let mut short = [0u32; 70];
    full(out, &mut short)?;
    let mut long = [0u32; 300];
    long_says(out, &mut long)?;
    let mut register = [0u32; 64];
    refusals(out, &mut register, &mut short, &granted)?;
    let mut trust_register = [0u32; 64];
    trusts(out, &mut trust_register)?;
    let mut dated = [0u32; 71];
    lapses(out, &mut dated)?;
    names(out)?;
    let mut both = [0u32; 119];
    batches(out, &mut both)?;
    let mut one = [0u32; 118];
    short_batch(out, &mut one)?;
    uses(out)?;
    simplified(out, &granted)?;
    let mut tried = [0u32; 71];
    trials(out, &mut tried)?;
    released(out, &mut granted)
}

fn main() {
    let _ = run(&mut Stdout);
}
