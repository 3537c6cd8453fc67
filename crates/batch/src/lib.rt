// Batch: "up to 16 requests granted together", or no word changed. Only when the last item has passed its tests are
// they written.
#![tactic(auto)]

ghost use Rattle.std.specs.Prelude.{◌≡◌, List, ℕ};
ghost use Rattle.register.specs.Calls.{Lent};
ghost use Rattle.register.specs.Batch.{items as items_of, GrantedInTurn};
ghost use Rattle.shared_tests.specs.Shared.{lent_by};
ghost use Rattle.batch.specs.Answers.{BatchedAs, AllGranted};

use batch_tests::{ItemRefusal, testable};
use item_list::{ask_at, item_at};
use shared_tests::signed::Signature;
use write_records::add_grant;

// The grants and the receipts of all items, one after another. Every test was made before.
fn grant_items(register: &mut [u32], day: u32, items: &[u32])
    requires { AllGranted register.old day items.now }
    ensures { (l : Lent) → (new : List ℕ) → GrantedInTurn l register.old (items_of day items.now) new
        → register.new ≡ new }
{
    let mut at = 0;
    // no plainer: the length word of an item says where the next one stands
    while let Some(end) = item_at(items, at) {
        add_grant(register, ask_at(items, day, at, end));
        at = end;
    }
}

// A batch that succeeds adds a grant and a receipt for each item and sets the latest day.
pub fn batch(
    signature: Signature,
    register: &mut [u32],
    day: u32,
    items: &[u32],
    ws: &mut [u32],
) -> Result<(), ItemRefusal>
    ensures { BatchedAs (lent_by signature.entry ws.old) register.old day items.now register.new result }
{
    testable(signature, register, day, items, ws)?;
    grant_items(register, day, items);
    Ok(())
}
