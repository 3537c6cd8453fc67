// The results of a Lam and of a Ret: a node of the first child and of the second's type.
ghost use Rattle.std.specs.Prelude.{◌≡◌};
ghost use Rattle.logic.specs.Term.{Op, Term, op_word};
ghost use Rattle.rules.specs.Rule.{pair_type};
ghost use Rattle.rules.specs.Form.{TypeFormed};
ghost use Rattle.results.specs.Results.{Pairs, Pairable};

use logic::limit::MOST_TYPE_WORDS;
use logic::refusal::{Reason, Refusal};
use parts::proposition::proposition;
use parts::{copy, copy_within};
use rules::typed::Typed;

// The type that begins with the word `head`, at the front of the workspace, or the refusal. The first child stands in
// the proof behind `at`, up to `next`; the second's type is the first m words of the workspace.
pub fn pair(
    proof: &[u32],
    ws: &mut [u32],
    head: u32,
    at: usize,
    next: usize,
    m: usize,
    end: usize,
) -> Result<Typed, Refusal>
    requires { Pairable proof.now ws.old at next m }
    ensures { (o : Op) → (a B : Term) → head ≡ op_word o → Pairs proof.now ws.old at next m a B
        → TypeFormed (pair_type at o a B) end ws.old ws.new result }
{
    if !proposition(ws, 0) {
        return Err(Reason::ConditionFails.at(at));
    }
    // the head word's and the first child's words come before the type's
    let before = next - at;
    if MOST_TYPE_WORDS < before + m {
        return Err(Reason::TypeTooLong.at(at));
    }
    copy_within(ws, 0, m, MOST_TYPE_WORDS);
    ws[0] = head;
    copy(proof, at + 1, before - 1, ws, 1);
    copy_within(ws, MOST_TYPE_WORDS, m, before);
    Ok(Typed {
        words: before + m,
        end,
    })
}
