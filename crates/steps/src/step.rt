// The result of a step.
ghost use Rattle.std.specs.Prelude.{◌≡◌, length};
ghost use Rattle.std.proofs.Math.Option.{some};
ghost use Rattle.logic.specs.Term.{Op, Term, node};
ghost use Rattle.words.specs.Place.{At};
ghost use Rattle.reduction.specs.Steps.{contracted, next_step};
ghost use Rattle.steps.specs.Step.{RedexAt, FillingOf, Steppable, SteppedTo};

use logic::word::{APP, RET};
use moves::fill::fill_into;
use parts::{copy, skip};

// Of a node at whose root a rule fits: where the body stands that is filled, from where up to where the term stands
// that it is filled with, and where the node ends.
#[derive(Clone, Copy)]
pub struct Filling {
    pub body: usize,
    pub from: usize,
    pub upto: usize,
    pub end: usize,
}

// What is filled, and with what, in the node that stands at `at`.
fn filling_at(words: &[u32], at: usize) -> Filling
    requires { RedexAt words.now at }
    ensures { (o : Op) → (a b u : Term) → At words.now at (node o a b) → contracted o a b ≡ some u
        → FillingOf words.now at (node o a b) u result }
{
    if words[at] == APP {
        // behind the words App and Lam: the domain, the body, the argument
        let body = skip(words, at + 2);
        let from = skip(words, body);
        let end = skip(words, from);
        return Filling {
            body,
            from,
            upto: end,
            end,
        };
    }
    let body = skip(words, at + 1);
    let end = skip(words, body);
    let from = if words[at + 1] == RET {
        // behind the words Bind and Ret: the principal, the proof
        skip(words, at + 2)
    } else {
        // the variable is unused: whatever the body is filled with, it is shifted
        at + 1
    };
    Filling {
        body,
        from,
        upto: body,
        end,
    }
}

// Writes the words of what the step at `at` makes of the term in front of `words`, which has n words, to the front of
// out, as far as there is room. Answers how many words the result has, if there is room for them.
// `n` stays beside `words`, and is no shorter slice: what may not change (words may follow the term).
pub fn step_into(words: &[u32], n: usize, at: usize, out: &mut [u32]) -> Option<usize>
    requires { Steppable words.now n at (length out.old) }
    ensures { (t u : Term) → At words.now 0 t → next_step t ≡ some u → SteppedTo u out.old out.new result }
{
    let f = filling_at(words, at);
    copy(words, 0, at, out, 0);
    let end = fill_into(words, f.body, 0, &words[f.from..f.upto], out, at)?.end;
    let rest = n - f.end;
    if out.len() - end < rest {
        return None;
    }
    copy(words, f.end, rest, out, end);
    Some(end + rest)
}
