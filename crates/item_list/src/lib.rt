// The items of a batch's list, one after another: operation, v, u, length, proof.
#![tactic(auto)]

ghost use Rattle.std.specs.Prelude.{◌≡◌, ℕ, ◌≤◌, leb, length, drop};
ghost use Rattle.register.specs.Batch.{most_items, items as items_of, next_item};
ghost use Rattle.records.specs.Entries.{asked};
ghost use Rattle.item_list.specs.Items.{item_end, ask_at as ask-there, ItemWithin};

use records::entry::Ask;
use records::format::{DELIVERY, EXTRACT, ITEM_HEAD, ITEM_LENGTH, OPERATION};

// "up to 16 requests".
pub const MOST_ITEMS: usize = 16;

// Where the item at a place ends; nothing, if no whole item stands there, since the list ends there or inside it. A
// length word past the list's end cuts its item short, whatever it says.
pub fn item_at(items: &[u32], at: usize) -> Option<usize>
    requires { at ≤ length items.now }
    ensures { (day : ℕ) → result ≡ item_end at (next_item day (drop at items.now)) }
{
    let words = *items.get(at + ITEM_LENGTH)?;
    let end = at + ITEM_HEAD + words as usize;
    (end <= items.len()).then_some(end)
}

// What the item asks on a day that stands at a place and ends at another.
pub fn ask_at(items: &[u32], day: u32, at: usize, end: usize) -> Ask<'_>
    requires { ItemWithin items.now at end }
    ensures { asked result ≡ ask-there day items.now at end }
{
    Ask {
        operation: items[at + OPERATION],
        extract: items[at + EXTRACT],
        delivery: items[at + DELIVERY],
        day,
        proof: &items[at + ITEM_HEAD..end],
    }
}

// Whether the list has at most 16 items; one cut short counts.
pub fn few(items: &[u32]) -> bool
    ensures { (day : ℕ) → result ≡ leb (length (items_of day items.now)) most_items }
{
    let mut at = 0;
    for _ in 0..MOST_ITEMS {
        let Some(end) = item_at(items, at) else {
            return true;
        };
        at = end;
    }
    at == items.len()
}
