// Between the children of a node: the test on the first child's type, and what is kept for the second.
ghost use Rattle.std.specs.Prelude.{◌≡◌, [], ◌∷◌, ℕ, ◌+◌, ◌-◌, ◌≤◌, length};
ghost use Rattle.logic.specs.Limits.{most_words};
ghost use Rattle.logic.specs.Term.{Op, bindO, Term, Says, size, first_word};
ghost use Rattle.logic.specs.Reading.{PlainType};
ghost use Rattle.logic.specs.Infer.{domain as is-domain};
ghost use Rattle.words.specs.Place.{written_at};
ghost use Rattle.words.specs.Typed.{TypeAt};
ghost use Rattle.rules.specs.Scope.{entry_head, binder_entry};
ghost use Rattle.rules.specs.Enter.{Enters, NodeEnterable, Entering, Kept, Keepable};

use crate::front::front_is;
use crate::scope::ENTRY_HEAD;
use logic::refusal::{Reason, Refusal};
use logic::word::{APP, BIND, KIND_P, LAM, PI, PRIN, PROP, SAYS, TYPE};
use moves::shift::shift_within;
use parts::copy_within;

// How many words at the front and at the end of the workspace are kept while the second child is derived.
#[derive(Clone, Copy)]
pub struct Entered {
    pub keep: usize,
    pub used: usize,
}

// Whether a type that begins with this word is one that a domain may have: T, P or KindP, which have no other word.
fn domain(word: u32) -> bool
    ensures { (A : Term) → PlainType A → word ≡ first_word A → result ≡ is-domain A }
{
    matches!(word, TYPE | PROP | KIND_P)
}

// Writes the first words of an entry.
fn put_head(ws: &mut [u32], head: usize, total: usize, start: usize, size: usize)
    requires { (head + entry_head ≤ length ws.old) × (total ≤ most_words) × (start ≤ most_words) × (size ≤ most_words) }
    ensures { ws.new ≡ written_at ws.old head (total ∷ start ∷ size ∷ []) }
{
    ws[head] = total as u32;
    ws[head + 1] = start as u32;
    ws[head + 2] = size as u32;
}

// Keeps the entry of a Pi or a Lam, whose domain stands in the proof from `start` up to
// `next`. Returns how many words are kept.
fn keep_domain(ws: &mut [u32], used: usize, start: usize, next: usize) -> usize
    requires { (used + entry_head ≤ length ws.old) × (start ≤ next) × (next ≤ most_words) }
    ensures { Kept (entry_head ∷ start ∷ (next - start) ∷ []) used ws.old ws.new result }
{
    let kept = used + ENTRY_HEAD;
    let head = ws.len() - kept;
    put_head(ws, head, ENTRY_HEAD, start, next - start);
    kept
}

// Keeps the entry of a Bind, whose proof's type Says p q is the first n words of the workspace: its words, with p
// raised over the binder. Returns how many words are kept.
fn keep_says(ws: &mut [u32], used: usize, n: usize) -> usize
    requires { Keepable ws.old used n }
    ensures { (at : ℕ) → (a p q : Term) → TypeAt ws.old 0 (Says p q) → n ≡ size (Says p q)
        → Kept (binder_entry bindO at a (Says p q)) used ws.old ws.new result }
{
    let kept = used + (ENTRY_HEAD + n);
    let head = ws.len() - kept;
    let start = head + ENTRY_HEAD;
    copy_within(ws, 0, n, start);
    let principal = shift_within(ws, start + 1, 0, 1);
    put_head(ws, head, ENTRY_HEAD + n, 0, n - 1 - principal.words);
    kept
}

// Tests the type of a node's first child, and keeps what the second child and the result need. The first child of the
// node at `at` ends at `next` in the proof; its type is the first n words of the workspace.
pub fn enter(
    proof: &[u32],
    ws: &mut [u32],
    used: usize,
    at: usize,
    next: usize,
    n: usize,
) -> Result<Entered, Refusal>
    requires { NodeEnterable proof.now ws.old used at next n }
    ensures { (o : Op) → (a A : Term) → Enters proof.now ws.old at next n o a A
        → Entering o at a A n used ws.old ws.new result }
{
    match proof[at] {
        APP => {
            // an App's function has a Pi type, which is kept at the front
            if ws[0] != PI {
                return Err(Reason::NotAFunction.at(at));
            }
            Ok(Entered { keep: n, used })
        }
        BIND => {
            if ws[0] != SAYS {
                return Err(Reason::ConditionFails.at(at));
            }
            let used = keep_says(ws, used, n);
            Ok(Entered { keep: 0, used })
        }
        PI | LAM => {
            if !domain(ws[0]) {
                return Err(Reason::ConditionFails.at(at));
            }
            let used = keep_domain(ws, used, at + 1, next);
            Ok(Entered { keep: 0, used })
        }
        // a Says or a Ret
        _ => {
            if !front_is(ws, PRIN) {
                return Err(Reason::ConditionFails.at(at));
            }
            Ok(Entered { keep: 0, used })
        }
    }
}
