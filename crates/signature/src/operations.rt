// The constants of the operations: each operation's permit and receipt.
ghost use Rattle.std.specs.Prelude.{◌≡◌, List};
ghost use Rattle.std.proofs.Math.ListN.{get_elem?};
ghost use Rattle.logic.specs.Term.{Term, encode};
ghost use Rattle.logic.specs.SignatureList.{is_type, operations_test};
ghost use Rattle.logic.specs.Reading.{InRange};
ghost use Rattle.rules.specs.Scope.{Declared};
ghost use Rattle.signature.specs.Listing.{Declares};

use logic::limit::MOST_OPERATIONS;
use logic::word::{PI, PROP, STRING};
use parts::same;
use rules::constants::Constants;

// The words of a permit's type, Pi S P.
pub const PERMIT: [u32; 3] = [PI, STRING, PROP];

// And of a receipt's, Pi S Pi S P.
pub const RECEIPT: [u32; 5] = [PI, STRING, PI, STRING, PROP];

// Whether constant i is there and its type has exactly the words given.
fn constant_is(constants: Constants, i: usize, words: &[u32]) -> bool
    requires { Declares constants.sig.now constants.table.now }
    ensures { (Σ : List Term) → (A : Term) → Declared constants.entry.sig.now constants.entry.table.now Σ
        → words.now ≡ encode A → InRange A
        → result ≡ is_type A (get_elem? Σ i) }
{
    let Constants { sig, table } = constants;
    if table.len() <= i {
        return false;
    }
    let start = table[i] as usize;
    let end = start + sig[start - 1] as usize;
    same(&sig[start..end], words)
}

// Whether operations 0 to n - 1, at least one and at most 8, have their
// permits, Pi S P, and their receipts, Pi S Pi S P.
pub fn operations(constants: Constants, n: u32) -> bool
    requires { Declares constants.sig.now constants.table.now }
    ensures { (Σ : List Term) → Declared constants.entry.sig.now constants.entry.table.now Σ → result ≡ operations_test Σ n }
{
    let count = n as usize;
    if count < 1 || MOST_OPERATIONS < count {
        return false;
    }
    for i in 0..count {
        if !constant_is(constants, 2 * i, &PERMIT) || !constant_is(constants, 2 * i + 1, &RECEIPT) {
            return false;
        }
    }
    true
}
