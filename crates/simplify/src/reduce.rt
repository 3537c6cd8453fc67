// Steps of a term, one after another, within the limits and a budget.
ghost use Rattle.std.specs.Prelude.{length};
ghost use Rattle.logic.specs.Answer.{answer};
ghost use Rattle.logic.specs.Term.{Term};
ghost use Rattle.words.specs.Place.{At};
ghost use Rattle.reduction.specs.Steps.{next_step};
ghost use Rattle.reduction.specs.Call.{simplify_into};
ghost use Rattle.simplify.specs.Turn.{Turnable, turned, TurnedTo};
ghost use Rattle.simplify.specs.Answers.{Reducible, SimplifiedAs};

use logic::limit::MOST_NESTING;
use logic::refusal::{Reason, Refusal};
use parts::copy_all;
use std::mem::swap;
use steps::redex::first_step;
use steps::step::step_into;
use words::nesting::nested;

// How many steps were taken, and how many words the result has.
#[derive(Clone, Copy, Debug, PartialEq, Eq)]
pub struct Simplified {
    pub steps: usize,
    pub words: usize,
}

// Takes the first step of the term in front of `from`, which has n words, where `left` steps may still be taken. Its
// result is written to the front of `into`, which has as many words as a term may have. Answers how many words the
// result has, or none where no step is left.
fn take_step(
    from: &[u32],
    n: usize,
    left: usize,
    into: &mut [u32],
) -> Result<Option<usize>, Refusal>
    requires { Turnable from.now n (length into.old) }
    ensures { (t : Term) → At from.now 0 t → TurnedTo (turned left (next_step t)) into.new (answer result) }
{
    let Some(at) = first_step(from, 0, into) else {
        return Ok(None);
    };
    if left == 0 {
        return Err(Reason::StepRemains.at(0));
    }
    let Some(words) = step_into(from, n, at, into) else {
        return Err(Reason::TermLength.at(0));
    };
    nested(into, 0, MOST_NESTING)?;
    Ok(Some(words))
}

// Takes steps of the term in front of `one`, which has len words, until none is left or the budget is used; then 25, then
// the words of the result. The results stand in `other` and in `one` by turns, so that none is copied back.
// Both lists are lent whole, with `len` beside: a result may be longer than the term.
pub fn reduce(
    one: &mut [u32],
    len: usize,
    budget: usize,
    other: &mut [u32],
    output: &mut [u32],
) -> Result<Simplified, Refusal>
    requires { Reducible one.old len (length one.old) (length other.old) }
    ensures { (t : Term) → At one.old 0 t
        → SimplifiedAs (simplify_into budget (length output.old) t) output.old output.new (answer result) }
{
    let mut from = &mut *one;
    let mut into = &mut *other;
    let mut n = len;
    let mut left = budget;
    while let Some(words) = take_step(from, n, left, into)? {
        n = words;
        left -= 1;
        swap(&mut from, &mut into);
    }
    if output.len() < n {
        return Err(Reason::OutputShort.at(0));
    }
    copy_all(&from[..n], &mut output[..n]);
    Ok(Simplified {
        steps: budget - left,
        words: n,
    })
}
