// Simplify: a term with parts that are not needed removed.
#![tactic(auto)]

pub mod reduce;

ghost use Rattle.std.specs.Prelude.{length};
ghost use Rattle.logic.specs.Answer.{answer};
ghost use Rattle.reduction.specs.Call.{simplify_call};
ghost use Rattle.shared_tests.specs.Shared.{lent_by};
ghost use Rattle.simplify.specs.Answers.{SimplifiedAs};

use crate::reduce::{Simplified, reduce};
use check_call::judge;
use logic::limit::MOST_WORDS;
use logic::refusal::Refusal;
use shared_tests::signed::Signature;

// Check's tests, then steps up to a budget, then 25, then the words of the result. While steps are taken the term stands
// in a list of its own and at the front of the workspace by turns: behind check's tests that is free.
pub fn simplify(
    signature: Signature,
    register: &[u32],
    day: u32,
    term: &[u32],
    budget: usize,
    output: &mut [u32],
    ws: &mut [u32],
) -> Result<Simplified, Refusal>
    ensures { SimplifiedAs (simplify_call (lent_by signature.entry ws.old) register.now day term.now budget
        (length output.old)) output.old output.new (answer result) }
{
    judge(signature, register, day, term, ws)?;
    let mut work = [0; MOST_WORDS];
    work[..term.len()].copy_from_slice(term);
    reduce(&mut work, term.len(), budget, &mut ws[..MOST_WORDS], output)
}
