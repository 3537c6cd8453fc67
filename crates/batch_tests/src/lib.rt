// The tests of a batch. The items are tested in turn without writing, each behind those before it.
#![tactic(auto)]

ghost use Rattle.std.specs.Prelude.{◌≡◌, List, []};
ghost use Rattle.logic.specs.Result.{ok};
ghost use Rattle.logic.specs.Term.{Term};
ghost use Rattle.typing.specs.Check.{ConstantsOf};
ghost use Rattle.register.specs.Records.{Content, register_content};
ghost use Rattle.register.specs.Calls.{Lent, view as view-seen, outline_of, on_register, day_test};
ghost use Rattle.register.specs.Batch.{items as items_of, all_granted, at_index, batch_call};
ghost use Rattle.register.specs.BatchTests.{items_own, at_start};
ghost use Rattle.shared_tests.specs.Shared.{lent_by};
ghost use Rattle.batch_tests.specs.Answers.{batched_answer, TestableItems};

use buckets::{BUCKETS, fill};
use item_list::{ask_at, few, item_at};
use logic::limit::MOST_CONSTANTS;
use logic::refusal::{Reason, Refusal};
use records::format::GRANT_WORDS;
use request::tests::request_tests;
use search::view::{View, view_of};
use shared_tests::signed::Signature;
use shared_tests::{in_time, prepare};

// The refusal of a batch: the index of its first item that fails, and what that is refused for.
#[derive(Clone, Copy, Debug, PartialEq, Eq)]
pub struct ItemRefusal {
    pub index: usize,
    pub refusal: Refusal,
}

// A refusal of the batch as a whole, at index 0.
impl From<Refusal> for ItemRefusal {
    ghost from_gives = { λ r b. b ≡ record { index = 0; refusal = r } };

    fn from(refusal: Refusal) -> ItemRefusal {
        ItemRefusal { index: 0, refusal }
    }
}

// The tests of the items in turn, behind the shared ones. Nothing is written: the words that the items before will take
// are a sum that is carried along.
fn test_items(
    signature: Signature,
    table: &[u32],
    view: View,
    buckets: &[usize],
    day: u32,
    items: &[u32],
    ws: &mut [u32],
) -> Result<(), ItemRefusal>
    requires { TestableItems signature.list.now signature.operations table.now view buckets.now ws.old }
    ensures { (l : Lent) → (Σ : List Term) → (c : Content) → l.n ≡ signature.entry.operations
        → ConstantsOf signature.entry.list.now table.now Σ → register_content view.entry.source.list.now ≡ ok c
        → batched_answer result ≡ items_own day 0 [] (items_of day items.now)
        (view-seen l (outline_of view.entry.source.list.now) c Σ) }
{
    let mut used = view.used;
    let mut latest = view.latest;
    let mut at = 0;
    let mut index = 0;
    // no plainer: the length word of an item says where the next one stands
    while at < items.len() {
        let Some(end) = item_at(items, at) else {
            return Err(ItemRefusal {
                index,
                refusal: Reason::Malformed.at(0),
            });
        };
        let ask = ask_at(items, day, at, end);
        let behind = View {
            used,
            latest,
            ..view
        };
        if let Err(refusal) = request_tests(
            signature,
            table,
            behind,
            buckets,
            &items[..at],
            ask,
            ws,
        ) {
            return Err(ItemRefusal { index, refusal });
        }
        used += ask.proof.len() + GRANT_WORDS;
        latest = day;
        at = end;
        index += 1;
    }
    Ok(())
}

// The tests of a batch of one item or more that begins with a whole one: the shared ones are made once, and the
// statements held are put in buckets once.
fn tried(
    signature: Signature,
    register: &[u32],
    day: u32,
    items: &[u32],
    ws: &mut [u32],
) -> Result<(), ItemRefusal>
    ensures { batched_answer result ≡ at_start (on_register (lent_by signature.entry ws.old) register.now
        (λ s. ok (items_own day 0 [] (items_of day items.now) s))) }
{
    let mut table = [0u32; MOST_CONSTANTS];
    let count = prepare(signature, register, &mut table, ws)?;
    let mut buckets = [0usize; BUCKETS];
    let view = view_of(register);
    fill(view.source, &mut buckets);
    test_items(signature, &table[..count], view, &buckets, day, items, ws)
}

// Those of an empty batch: "tests 1 to 4, 5 for n and the permit and receipt types, and 23".
fn idle(signature: Signature, register: &[u32], day: u32, ws: &mut [u32]) -> Result<(), ItemRefusal>
    ensures { batched_answer result ≡
        at_index 0 (on_register (lent_by signature.entry ws.old) register.now (day_test day)) all_granted }
{
    let mut table = [0u32; MOST_CONSTANTS];
    prepare(signature, register, &mut table, ws)?;
    if !in_time(register, day) {
        return Err(Reason::DayBeforeLatest.at(0).into());
    }
    Ok(())
}

// All tests of a batch: "More than 16 requests, one cut short included, is 5 at index 0, before any is tried".
pub fn testable(
    signature: Signature,
    register: &[u32],
    day: u32,
    items: &[u32],
    ws: &mut [u32],
) -> Result<(), ItemRefusal>
    ensures { batched_answer result ≡ batch_call (lent_by signature.entry ws.old) register.now day items.now }
{
    if !few(items) {
        return Err(Reason::BadNumber.at(0).into());
    }
    if items.is_empty() {
        return idle(signature, register, day, ws);
    }
    if item_at(items, 0).is_none() {
        return Err(Reason::Malformed.at(0).into());
    }
    tried(signature, register, day, items, ws)
}
