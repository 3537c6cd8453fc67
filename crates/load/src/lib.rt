// A load of trial requests, the same for all who have the seed.
#![tactic(auto)]

ghost use Rattle.std.specs.Prelude.{◌≡◌, ◌*◌, ◌%◌, length};
ghost use Rattle.logic.specs.Answer.{answer};
ghost use Rattle.words.specs.Place.{written_at};
ghost use Rattle.load.specs.Load.{modulus, next_state, request_words, load_call};
ghost use Rattle.load.specs.Answers.{RequestFits, WrittenAs};

use forms::{CONSENT_WORDS, PROOF_WORDS, proof_words};
use logic::refusal::{Reason, Refusal};
use logic::word::{APP, CONSTANT_0, PAYLOADS, TEXT_0};
use parts::copy;

// "A load of 1 to 256 requests".
const MOST_REQUESTS: u32 = 256;

// The generator's numbers; its state keeps 32 bits, which is modulo 4294967296.
const MULTIPLIER: u32 = 1664525;

const INCREMENT: u32 = 1013904223;

// "the say App C2 sv", and the operation of each request.
const CONSTANT: u32 = 2;

const C2: u32 = CONSTANT_0 + CONSTANT;

const OPERATION: u32 = 0;

// The words of a request before its say: v, principal and u; before its proof; and all of them.
pub const NUMBERS: usize = 3;

pub const FRONT: usize = NUMBERS + CONSENT_WORDS;

pub const REQUEST_WORDS: usize = FRONT + PROOF_WORDS;

// a * b, modulo 4294967296.
fn wrapping_mul(a: u32, b: u32) -> u32
    ensures { result ≡ (a * b) % modulus }
{
    a.wrapping_mul(b)
}

// "state becomes state times 1664525 plus 1013904223": a wrapping multiply helper and the supplied wrapping add.
fn next_state(state: u32) -> u32
    ensures { result ≡ next_state state }
{
    wrapping_mul(state, MULTIPLIER).wrapping_add(INCREMENT)
}

// Writes the words of a request at a place.
fn write_request(extract: u32, principal: u32, delivery: u32, output: &mut [u32], place: usize)
    requires { RequestFits extract principal output.old place }
    ensures { output.new ≡ written_at output.old place (request_words extract principal delivery) }
{
    let front = [extract, principal, delivery, APP, C2, TEXT_0 + extract];
    let proof = proof_words(OPERATION, CONSTANT, extract, principal);
    copy(&front, 0, FRONT, output, place);
    copy(&proof, 0, PROOF_WORDS, output, place + FRONT);
}

// 29, then 25, then the words of so many requests; answers how many words they are.
pub fn load(seed: u32, count: u32, output: &mut [u32]) -> Result<usize, Refusal>
    ensures { WrittenAs (load_call seed count (length output.old)) output.old output.new (answer result) }
{
    if count < 1 || MOST_REQUESTS < count {
        return Err(Reason::LoadSize.at(0));
    }
    let count = count as usize;
    let words = REQUEST_WORDS * count;
    if output.len() < words {
        return Err(Reason::OutputShort.at(0));
    }
    let mut state = seed;
    for i in 0..count {
        // "before each draw"
        let first = next_state(state);
        let second = next_state(first);
        state = next_state(second);
        // "replacing principal 0 by 1"
        let principal = (second % PAYLOADS).max(1);
        write_request(
            first % PAYLOADS,
            principal,
            state % PAYLOADS,
            output,
            REQUEST_WORDS * i,
        );
    }
    Ok(words)
}
