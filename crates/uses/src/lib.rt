// For audit work: how many variables of a term stand free, from a number on.
#![tactic(auto)]

ghost use Rattle.std.specs.Prelude.{◌≡◌};
ghost use Rattle.logic.specs.Answer.{answer};
ghost use Rattle.uses.specs.Uses.{uses_call};

use logic::limit::{MOST_NESTING, MOST_WORDS};
use logic::refusal::Refusal;
use logic::word::PAYLOADS;
use moves::shift::shift_into;
use words::term::term_test;

// Tests 6 to 8, then how many variables stand free that are numbered `from` or more, each as often as it stands.
pub fn uses(term: &[u32], from: u32) -> Result<usize, Refusal>
    ensures { answer result ≡ uses_call from term.now }
{
    term_test(term, MOST_WORDS, MOST_NESTING)?;
    if PAYLOADS <= from {
        // no variable has such a number
        return Ok(0);
    }
    // "each as often as it stands and also for a shift by 0"
    let mut work = [0; MOST_WORDS];
    Ok(shift_into(term, from, 0, &mut work, 0).free)
}
