// Test 14: the Signs of a term, each sought among the statements held and among the receipts of requests before.
#![tactic(auto)]

ghost use Rattle.std.specs.Prelude.{◌≡◌, List, ℕ, ◌<◌};
ghost use Rattle.logic.specs.Answer.{answer};
ghost use Rattle.logic.specs.Limits.{payloads, most_operations};
ghost use Rattle.logic.specs.Term.{Term};
ghost use Rattle.words.specs.Place.{Is};
ghost use Rattle.register.specs.Records.{Record, Ask, ask_of, receipt_words, same_words, statements};
ghost use Rattle.register.specs.Calls.{signs_held};
ghost use Rattle.register.specs.BatchTests.{AskedBefore, with_receipts};
ghost use Rattle.register.specs.BatchTests.{receipted as receipted-of};
ghost use Rattle.search.specs.Sources.{SourceOf, Searchable};
ghost use Rattle.sought.specs.Sought.{found_answer, sought};
ghost use Rattle.buckets.specs.Buckets.{Buckets};
ghost use Rattle.signs.specs.Answers.{IsTerm, SomeAsked};

use buckets::look_up;
use logic::refusal::{Reason, Refusal};
use logic::word::{APP, CONSTANT_0, Class, TEXT_0, class_of, payload_of};
use parts::skip;
use records::format::{DELIVERY, DESK, EXTRACT, ITEM_HEAD, ITEM_LENGTH, OPERATION};
use search::statement::Source;
use sought::{Found, When};

// Whether a request's receipt, App App C(2i+1) sv su, has these words.
fn receipt_says(operation: u32, extract: u32, delivery: u32, words: &[u32]) -> bool
    requires { (operation < most_operations) × (extract < payloads) × (delivery < payloads) }
    ensures { (day : ℕ) → (proof : List ℕ)
        → result ≡ same_words (receipt_words (ask_of operation extract delivery day proof)) words.now }
{
    let receipt = [
        APP,
        APP,
        CONSTANT_0 + (2 * operation + 1),
        TEXT_0 + extract,
        TEXT_0 + delivery,
    ];
    &receipt[..] == words
}

// Whether the receipt of one of the requests, which stand one after another in a batch's list, is the principal's and
// has these words: receipts are the desk's.
pub fn receipted(asked: &[u32], principal: u32, words: &[u32]) -> bool
    requires { SomeAsked asked.now }
    ensures { (ks : List Ask) → AskedBefore asked.now ks
        → result ≡ receipted-of ks principal words.now }
{
    if principal != DESK {
        return false;
    }
    let mut at = 0;
    // no plainer: the length word of a request says where the next one stands
    while at < asked.len() {
        let same = receipt_says(
            asked[at + OPERATION],
            asked[at + EXTRACT],
            asked[at + DELIVERY],
            words,
        );
        if same {
            return true;
        }
        at += ITEM_HEAD + asked[at + ITEM_LENGTH] as usize;
    }
    false
}

// What is known of a statement of the principal with these words, behind the requests: their receipts serve.
fn find_behind(
    source: Source,
    buckets: &[usize],
    asked: &[u32],
    principal: u32,
    words: &[u32],
    when: When,
) -> Found
    requires { Searchable source.span source.list.now × Buckets source.span source.list.now buckets.now × SomeAsked asked.now }
    ensures { (rs : List Record) → (ks : List Ask) → SourceOf source.entry.span source.entry.list.now rs → AskedBefore asked.now ks
        → found_answer result ≡ with_receipts ks (sought when (statements rs)) principal words.now }
{
    if receipted(asked, principal, words) {
        return Found::Covered;
    }
    look_up(source, buckets, principal, words, when)
}

// Test 14 behind requests: the Signs of a term in word order, each sought; "the first Sign with either decides". "A Sign
// held only outside the day is 22 in the place of 14".
pub fn first_miss_behind(
    source: Source,
    buckets: &[usize],
    asked: &[u32],
    term: &[u32],
    when: When,
) -> Result<(), Refusal>
    requires { Searchable source.span source.list.now × Buckets source.span source.list.now buckets.now × SomeAsked asked.now × IsTerm term.now }
    ensures { (rs : List Record) → (ks : List Ask) → (t : Term) → SourceOf source.entry.span source.entry.list.now rs
        → AskedBefore asked.now ks → Is term.now t
        → answer result ≡ signs_held (with_receipts ks (sought when (statements rs))) t }
{
    for (i, &word) in term.iter().enumerate() {
        if class_of(word) == Class::Sign {
            let start = i + 1;
            let end = skip(term, start);
            let found = find_behind(
                source,
                buckets,
                asked,
                payload_of(word),
                &term[start..end],
                when,
            );
            match found {
                Found::Covered => {}
                Found::Lapsed => return Err(Reason::HeldOutside.at(i)),
                Found::Unheld => return Err(Reason::NotHeld.at(i)),
            }
        }
    }
    Ok(())
}

// Test 14 behind no request, and without buckets.
pub fn first_miss(source: Source, term: &[u32], when: When) -> Result<(), Refusal>
    requires { Searchable source.span source.list.now × IsTerm term.now }
    ensures { (rs : List Record) → (t : Term) → SourceOf source.entry.span source.entry.list.now rs
        → Is term.now t → answer result ≡ signs_held (sought when (statements rs)) t }
{
    let empty = [0usize; 1];
    first_miss_behind(source, &empty, &term[..0], term, when)
}
