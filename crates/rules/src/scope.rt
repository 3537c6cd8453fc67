// The binders in scope, whose entries are kept at the end of the workspace, the nearest first.
ghost use Rattle.std.specs.Prelude.{ℕ, suc, ◌+◌, ◌<◌, List, length, Ok};
ghost use Rattle.logic.specs.Result.{ok};
ghost use Rattle.logic.specs.Term.{Term};
ghost use Rattle.logic.specs.Move.{raise};
ghost use Rattle.logic.specs.Reading.{PlainType};
ghost use Rattle.words.specs.Place.{Is};
ghost use Rattle.words.specs.Lookup.{part_of};
ghost use Rattle.rules.specs.Rule.{variable_type};
ghost use Rattle.rules.specs.Scope.{scope_words, Binders};
ghost use Rattle.rules.specs.Form.{TypeFormed};
ghost use Rattle.rules.specs.Variable.{Walkable, EntryFound, InScope, Raises, Raisable};

use crate::front::SMALL;
use crate::typed::Typed;
use logic::limit::MOST_TYPE_WORDS;
use logic::refusal::{Reason, Refusal};
use moves::shift::shift_into;
use parts::copy;
use parts::lookup::lookup;

// The first words of an entry: how many words the entry has, where the type stands in the proof, and how many words the
// type has. Where the entry has more, the type stands at its end.
pub const ENTRY_HEAD: usize = 3;

// How many words are kept from the entry of variable n on, if there is such a binder.
fn binder(ws: &[u32], floor: usize, used: usize, n: u32) -> Option<usize>
    requires { Walkable ws.now floor used }
    ensures { (proof : List ℕ) → (Γ : List Term) → Binders proof (scope_words floor used ws.now) Γ
        → EntryFound proof ws.now floor used n Γ result }
{
    let mut kept = used;
    let mut left = n;
    while floor < kept {
        if left == 0 {
            return Some(kept);
        }
        kept -= ws[ws.len() - kept] as usize;
        left -= 1;
    }
    None
}

// The type of `size` words that stands at `from`, raised to where variable n stands, by way of a buffer to the front of
// the workspace.
fn raised(
    proof: &[u32],
    ws: &mut [u32],
    in_workspace: bool,
    from: usize,
    size: usize,
    n: u32,
    at: usize,
    buffer: &mut [u32],
) -> Typed
    requires { Raisable proof.now ws.old in_workspace from size n at (length buffer.old) }
    ensures { (A : Term) → Is (part_of proof.now ws.old in_workspace from (from + size)) A
        → PlainType (raise (suc n) A) → TypeFormed (ok (raise (suc n) A)) (at + 1) ws.old ws.new (Ok result) }
{
    // "A binder's type stands either in the proof's words or in the workspace"
    let part = lookup(proof, ws, in_workspace, from, from + size);
    let raised = shift_into(part, 0, n as i32 + 1, buffer, 0);
    copy(buffer, 0, raised.words, ws, 0);
    Typed {
        words: raised.words,
        end: at + 1,
    }
}

// The type of variable n, raised to where the variable stands, at the front of the workspace.
pub fn variable(
    proof: &[u32],
    ws: &mut [u32],
    floor: usize,
    used: usize,
    n: u32,
    at: usize,
) -> Result<Typed, Refusal>
    requires { InScope proof.now ws.old floor used n at }
    ensures { (Γ : List Term) → Binders proof.now (scope_words floor used ws.old) Γ → Raises Γ n
        → TypeFormed (variable_type Γ at n) (at + 1) ws.old ws.new result }
{
    let Some(kept) = binder(ws, floor, used, n) else {
        return Err(Reason::UnboundVariable.at(at));
    };
    let head = ws.len() - kept;
    let total = ws[head] as usize;
    let start = ws[head + 1] as usize;
    let size = ws[head + 2] as usize;
    if MOST_TYPE_WORDS < size {
        return Err(Reason::TypeTooLong.at(at));
    }
    let in_workspace = ENTRY_HEAD < total;
    let from = if in_workspace {
        head + (total - size)
    } else {
        start
    };
    // local buffers are cleared only where they must be
    if size <= SMALL {
        let mut small = [0u32; SMALL];
        return Ok(raised(proof, ws, in_workspace, from, size, n, at, &mut small));
    }
    let mut large = [0u32; MOST_TYPE_WORDS];
    Ok(raised(proof, ws, in_workspace, from, size, n, at, &mut large))
}
