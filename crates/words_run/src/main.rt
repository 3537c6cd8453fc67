// Reads, shifts and fills terms, at the edges too, and prints a line for each.
#![tactic(auto)]

ghost use Rattle.std.specs.Prelude.{IfSome};
ghost use Rattle.io.specs.Counts.{IsPrefixLen};

use logic::refusal::Refusal;
use logic::word::{APP, CONSTANT_0, KIND_P, LAM, PAYLOADS, PI, PROP, SIGN_0, VARIABLE_0};
use moves::fill::fill_into;
use moves::shift::{Shift, shift_into};
use words::nesting::nested;
use words::read::read_whole;

// P, C0 and V0.
const P: u32 = PROP;

const C0: u32 = CONSTANT_0;

const V0: u32 = VARIABLE_0;

// The most that a shift may be asked.
const FAR: i32 = PAYLOADS as i32;

// What `nested` answers of words that are one term, or `read_whole` of others.
fn nested_whole(words: &[u32], left: usize) -> Result<usize, Refusal> {
    read_whole(words)?;
    nested(words, 0, left)
}

// What `shift_into` writes into out, for words that are one term; nothing where they are none, or there is no room, or
// a number is too big.
fn shifted(words: &[u32], c: u32, amount: i32, out: &mut [u32]) -> Option<Shift>
    ensures { IfSome result (λ shift. IsPrefixLen shift.words out.new) }
{
    let n = read_whole(words).ok()?;
    let most = PAYLOADS as usize;
    if out.len() < n || most < n || most - n < c as usize || amount < -FAR || FAR < amount {
        return None;
    }
    Some(shift_into(words, c, amount, out, 0))
}

// How many words `fill_into` writes into out, for a body and a filler that are one term each; nothing where they are
// none, or there is no room.
fn filled(body: &[u32], filler: &[u32], out: &mut [u32]) -> Option<usize>
    ensures { IfSome result (λ n. IsPrefixLen n out.new) }
{
    let n = read_whole(body).ok()?;
    let m = read_whole(filler).ok()?;
    let most = PAYLOADS as usize;
    if most < n || most < m {
        return None;
    }
    let done = fill_into(body, 0, 0, filler, out, 0)?;
    Some(done.end)
}

fn print_words(words: &[u32]) {
    for &word in words {
        io::write_all(1, b" ");
        io::print_hex(1, u64::from(word), 8);
    }
}

// What was written: its words, or how many where they are many.
fn print_result(out: &[u32]) {
    io::write_all(1, b":");
    if out.is_empty() {
        io::write_all(1, b" none");
    } else if out.len() < 9 {
        print_words(out);
    } else {
        io::write_all(1, b" ");
        io::print_decimal(1, out.len() as u64);
        io::write_all(1, b" words");
    }
    io::write_all(1, b"\n");
}

// A line with the place where the words end or are refused.
fn print_place(what: &[u8], label: &[u8], answer: Result<usize, Refusal>, ends: &[u8], bad: &[u8]) {
    io::write_all(1, what);
    io::write_all(1, label);
    let (word, place) = match answer {
        Ok(end) => (ends, end),
        Err(refusal) => (bad, refusal.place),
    };
    io::write_all(1, word);
    io::print_decimal(1, place as u64);
    io::write_all(1, b"\n");
}

fn read(label: &[u8], words: &[u32]) {
    print_place(
        b"read ",
        label,
        read_whole(words),
        b": ends at ",
        b": bad at ",
    );
}

fn nest(label: &[u8], words: &[u32], left: usize) {
    let answer = nested_whole(words, left);
    print_place(b"nest ", label, answer, b": within at ", b": past at ");
}

fn shift(label: &[u8], words: &[u32], c: u32, amount: i32) {
    io::write_all(1, b"shift ");
    io::write_all(1, label);
    let mut out = [0u32; 256];
    let none = Shift { words: 0, free: 0 };
    let shift = shifted(words, c, amount, &mut out).unwrap_or(none);
    io::write_all(1, b", free ");
    io::print_decimal(1, shift.free as u64);
    print_result(&out[..shift.words]);
}

fn fill(label: &[u8], body: &[u32], filler: &[u32]) {
    io::write_all(1, b"fill ");
    io::write_all(1, label);
    let mut out = [0u32; 256];
    let n = filled(body, filler, &mut out).unwrap_or(0);
    print_result(&out[..n]);
}

fn reads() {
    let one = [P];
    read(b"P", &one);
    read(b"no words", &one[..0]);
    let missing = [APP, C0];
    read(b"App C0", &missing);
    let after = [LAM, P, V0, P];
    read(b"Lam P V0, and P after it", &after);
    let payload = [PI, P + 1, V0];
    read(b"Pi P1 V0", &payload);
    let sort = [PI, P, KIND_P];
    read(b"Pi P KindP", &sort);
    let mut chain = [SIGN_0; 2048];
    chain[2047] = P;
    read(b"a chain 2048 deep", &chain);
    nest(b"a chain 2048 deep, 2048 allowed", &chain, 2048);
    nest(b"a chain 2048 deep, 32 allowed", &chain, 32);
}

fn shifts() {
    let body = [LAM, V0, APP, V0, V0 + 1];
    shift(b"Lam V0 App V0 V1 up 2", &body, 0, 2);
    shift(b"Lam V0 App V0 V1 by 0", &body, 0, 0);
    shift(b"Lam V0 App V0 V1 by 0 under 1", &body, 1, 0);
    let free = [PI, V0 + 3, V0 + 4];
    shift(b"Pi V3 V4 down 3", &free, 0, -3);
    shift(b"Pi V3 V4 up 1 under 4", &free, 4, 1);
    let last = [V0 + 16777215];
    shift(b"V16777215 by 0", &last, 0, 0);
    let signed = [SIGN_0 + 3, V0 + 16777215];
    shift(b"Sign3 V16777215 up 1", &signed, 0, 1);
    shift(b"V16777215 up 16777217", &last, 0, 16777217);
}

fn fills() {
    let none = [APP, C0, V0 + 1];
    let many = [APP, APP, V0, V0, LAM, V0, V0 + 1];
    let filler = [V0 + 5];
    fill(b"App C0 V1 with V5", &none, &filler);
    fill(b"App App V0 V0 Lam V0 V1 with V5", &many, &filler);
    let signed = [SIGN_0, V0];
    fill(b"Sign0 V0 with V5", &signed, &filler);
    let once = [APP, V0, P];
    let mut long = [SIGN_0; 255];
    long[254] = P;
    fill(b"App V0 P with 254 words", &once, &long[1..]);
    fill(b"App V0 P with 255 words", &once, &long);
}

fn main() {
    reads();
    shifts();
    fills();
}
