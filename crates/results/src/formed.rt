// The result of a node, from its children and their types.
ghost use Rattle.logic.specs.Term.{Op, Term};
ghost use Rattle.rules.specs.Rule.{node_type};
ghost use Rattle.rules.specs.Form.{TypeFormed};
ghost use Rattle.results.specs.Results.{Forms, Formable};

use crate::apply::apply;
use crate::pair::pair;
use bind_result::bind;
use logic::refusal::{Reason, Refusal};
use logic::word::{APP, BIND, KIND_P, LAM, PI, PROP, RET, SAYS};
use rules::front::front_is;
use rules::typed::Typed;

// The type of a node, at the front of the workspace, or the refusal. The node stands at `at` in the proof, up to `end`,
// its second child from `next` on. The second child's type has m words, at the front of the workspace; of an App, they
// stand behind the n words of its function's type.
pub fn formed(
    proof: &[u32],
    ws: &mut [u32],
    used: usize,
    at: usize,
    next: usize,
    n: usize,
    m: usize,
    end: usize,
) -> Result<Typed, Refusal>
    requires { Formable proof.now ws.old used at next n m end }
    ensures { (o : Op) → (a b A B : Term) → Forms proof.now ws.old used at next n m end o a b A B
        → TypeFormed (node_type o at a b A B) end ws.old ws.new result }
{
    match proof[at] {
        APP => apply(proof, ws, at, next, n, m, end),
        BIND => bind(ws, used, at, m, end),
        LAM => pair(proof, ws, PI, at, next, m, end),
        RET => pair(proof, ws, SAYS, at, next, m, end),
        SAYS => {
            if !front_is(ws, PROP) {
                return Err(Reason::ConditionFails.at(at));
            }
            Ok(Typed { words: m, end })
        }
        // a Pi, whose type is its body's
        _ => {
            if !front_is(ws, PROP) && !front_is(ws, KIND_P) {
                return Err(Reason::ConditionFails.at(at));
            }
            Ok(Typed { words: m, end })
        }
    }
}
