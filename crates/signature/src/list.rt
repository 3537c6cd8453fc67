// The signature list: a length word and a type for each constant.
ghost use Rattle.std.specs.Prelude.{◌≡◌, true, List, drop};
ghost use Rattle.logic.specs.Term.{Term};
ghost use Rattle.logic.specs.SignatureList.{signature, constant as constant-type};
ghost use Rattle.typing.specs.Check.{ConstantsOf};
ghost use Rattle.signature.specs.Listing.{constant_at, succeeded, Listable, SignatureRead, SignatureReadable};

use crate::operations::{PERMIT, RECEIPT};
use logic::limit::{MOST_CONSTANT_WORDS, MOST_CONSTANTS, MOST_NESTING, MOST_WORDS};
use logic::refusal::{Reason, Refusal};
use logic::word::KIND_P;
use parts::same;
use rules::constants::Constants;
use rules::front::front_is;
use typing::check::check_term;

// Whether words are those of a permit's type, Pi S P, or of a receipt's, Pi S Pi S P, which pass behind any constants.
fn common(words: &[u32]) -> bool
    ensures { (Σ : List Term) → result ≡ true → succeeded (constant-type Σ words.now) ≡ true }
{
    same(words, &PERMIT) || same(words, &RECEIPT)
}

// Whether the list goes on at `at` with a length word of 1 to 256 and as many words of a
// type that passes the check with type KindP.
fn constant(constants: Constants, at: usize, ws: &mut [u32]) -> bool
    requires { Listable constants.sig.now constants.table.now ws.old at }
    ensures { (Σ : List Term) → ConstantsOf constants.entry.sig.now constants.entry.table.now Σ
        → result ≡ constant_at Σ (drop at constants.entry.sig.now) }
{
    let sig = constants.sig;
    let n = sig[at] as usize;
    let start = at + 1;
    if n < 1 || MOST_CONSTANT_WORDS < n || sig.len() - start < n {
        return false;
    }
    let words = &sig[start..start + n];
    if common(words) {
        return true;
    }
    check_term(constants, words, MOST_WORDS, MOST_NESTING, ws).is_ok() && front_is(ws, KIND_P)
}

// Reads the signature list: the table gets the place of each constant's type. How many constants it has that is
// accepted; it is refused at the length word of the first bad one.
pub fn read_signature(sig: &[u32], table: &mut [u32], ws: &mut [u32]) -> Result<usize, Refusal>
    requires { SignatureReadable table.old ws.old }
    ensures { SignatureRead (signature sig.now) sig.now table.new result }
{
    let mut at: usize = 0;
    let mut count: usize = 0;
    while at < sig.len() {
        let constants = Constants {
            sig,
            table: &table[..count],
        };
        if MOST_CONSTANTS <= count || !constant(constants, at, ws) {
            return Err(Reason::BadSignature.at(at));
        }
        table[count] = (at + 1) as u32;
        at += 1 + sig[at] as usize;
        count += 1;
    }
    Ok(count)
}
