// The result of a Bind.
#![tactic(auto)]

ghost use Rattle.logic.specs.Term.{Term};
ghost use Rattle.rules.specs.Rule.{bind_type};
ghost use Rattle.rules.specs.Form.{TypeFormed};
ghost use Rattle.bind_result.specs.BindResult.{Binds, Bindable};

use logic::refusal::{Reason, Refusal};
use moves::shift::shift_within;
use parts::same;
use rules::scope::ENTRY_HEAD;
use rules::typed::Typed;

// The type of a Bind, at the front of the workspace, or the refusal. The body's type is the first m words
// of the workspace; the proof's type Says p q, with p raised, is kept in the nearest binder's entry, with
// which the `used` words at the end begin.
pub fn bind(ws: &mut [u32], used: usize, at: usize, m: usize, end: usize) -> Result<Typed, Refusal>
    requires { Bindable ws.old used m }
    ensures { (p q B : Term) → Binds ws.old used m p q B → TypeFormed (bind_type at p B) end ws.old ws.new result }
{
    let head = ws.len() - used;
    let total = ws[head] as usize;
    let size = ws[head + 2] as usize;
    // the word Says and the principal's words
    let said = total - ENTRY_HEAD - size;
    let start = head + ENTRY_HEAD;
    let held = &ws[..];
    if m <= said || !same(&held[..said], &held[start..start + said]) {
        return Err(Reason::ConditionFails.at(at));
    }
    // "Counted from a body's variable 0 on and from 1 on, the two differ by the uses of its binder"; the principal,
    // which was raised, has none of them
    let from_1 = shift_within(ws, 0, 1, 0);
    // "shifts every free variable up or down by a signed amount": minus 1 after Bind, the principal's too
    let from_0 = shift_within(ws, 0, 0, -1);
    if from_0.free != from_1.free {
        return Err(Reason::VariableEscapes.at(at));
    }
    Ok(Typed {
        words: from_0.words,
        end,
    })
}
