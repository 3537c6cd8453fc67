// The derivation of a term's type.
ghost use Rattle.std.specs.Prelude.{◌+◌, List};
ghost use Rattle.logic.specs.Term.{Term, size};
ghost use Rattle.logic.specs.Infer.{infer};
ghost use Rattle.typing.specs.Derive.{SubjectAt, Derivable, Derived};

use logic::refusal::Refusal;
use logic::word::{Class, class_of, payload_of};
use results::formed::formed;
use results::sign::sign;
use rules::atom::atom;
use rules::constants::Constants;
use rules::enter::enter;
use rules::scope::variable;
use rules::typed::Typed;

// The type of the term that stands at `at` in the proof, at the front of the workspace. Of the `used` words kept at the
// end of the workspace, those before the last `floor` are the entries of the binders in scope. The term nests at most
// `left` deep. "Children go left to right; a condition is tested once": the derivation recurses over nested terms, and
// the nesting left falls.
pub fn derive(
    constants: Constants,
    proof: &[u32],
    ws: &mut [u32],
    floor: usize,
    used: usize,
    at: usize,
    left: usize,
) -> Result<Typed, Refusal>
    requires { Derivable constants.sig.now constants.table.now proof.now ws.old floor used at left }
    ensures { (Σ Γ : List Term) → (t : Term)
        → SubjectAt constants.entry.sig.now constants.entry.table.now proof.now ws.old floor used at left Σ Γ t
        → Derived (infer Σ Γ at t) (at + size t) used ws.old ws.new result }
{
    let word = proof[at];
    match class_of(word) {
        Class::Atom => atom(constants, ws, word, at),
        Class::Variable => variable(proof, ws, floor, used, payload_of(word), at),
        Class::Sign => {
            // "with no variables in scope"
            let inner = derive(constants, proof, ws, used, used, at + 1, left - 1)?;
            sign(proof, ws, at, inner.words, inner.end)
        }
        _ => {
            // most first children are atoms, which need no call of their own
            let head = proof[at + 1];
            let typed = if class_of(head) == Class::Atom {
                atom(constants, ws, head, at + 1)
            } else {
                derive(constants, proof, ws, floor, used, at + 1, left - 1)
            };
            let first = typed?;
            let n = first.words;
            let next = first.end;
            let entered = enter(proof, ws, used, at, next, n)?;
            let kept = entered.used;
            // "Each nested rule works in what is left of the workspace"
            let second = derive(
                constants,
                proof,
                &mut ws[entered.keep..],
                floor,
                kept,
                next,
                left - 1,
            )?;
            formed(proof, ws, kept, at, next, n, second.words, second.end)
        }
    }
}
