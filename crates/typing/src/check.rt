// Tests 6 to 12 on a term's words.
ghost use Rattle.std.specs.Prelude.{ℕ, length, ◌≡◌, List};
ghost use Rattle.logic.specs.Limits.{most_statement_words, most_statement_nesting};
ghost use Rattle.logic.specs.Answer.{answer};
ghost use Rattle.logic.specs.Term.{Term};
ghost use Rattle.logic.specs.Check.{check_statement};
ghost use Rattle.logic.specs.Result.{without_value};
ghost use Rattle.typing.specs.Check.{ConstantsOf, Testable, typed_term, Judged};

use crate::derive::derive;
use logic::limit::{MOST_STATEMENT_NESTING, MOST_STATEMENT_WORDS, MOST_TYPE_WORDS};
use logic::refusal::{Reason, Refusal};
use logic::word::PROP;
use rules::constants::Constants;
use rules::front::front_is;
use rules::typed::Typed;
use words::term::term_test;

// Tests 6 to 12 of a term of at most `most` words, nested at most `deep`. Its type comes to the front of the workspace.
pub fn check_term(
    constants: Constants,
    term: &[u32],
    most: usize,
    deep: usize,
    ws: &mut [u32],
) -> Result<Typed, Refusal>
    requires { Testable constants.sig.now constants.table.now ws.old most deep }
    ensures { (Σ : List Term) → ConstantsOf constants.entry.sig.now constants.entry.table.now Σ
        → Judged (typed_term Σ most deep term.now) (length term.now) ws.new result }
{
    term_test(term, most, deep)?;
    derive(constants, term, ws, 0, 0, 0, deep)
}

// Tests 6 to 12 of a proposition as the term Sign: its places count from 0, and a fault at the added word
// is at place 0. That word counts for 6 and 8.
pub fn check_statement(
    constants: Constants,
    proposition: &[u32],
    ws: &mut [u32],
) -> Result<(), Refusal>
    requires { Testable constants.sig.now constants.table.now ws.old most_statement_words most_statement_nesting }
    ensures { (Σ : List Term) → (a : ℕ) → ConstantsOf constants.entry.sig.now constants.entry.table.now Σ
        → answer result ≡ without_value (check_statement Σ a proposition.now) }
{
    check_term(
        constants,
        proposition,
        MOST_STATEMENT_WORDS,
        MOST_STATEMENT_NESTING,
        ws,
    )?;
    if !front_is(ws, PROP) {
        return Err(Reason::ConditionFails.at(0));
    }
    // Says, the principal and the proposition
    if MOST_TYPE_WORDS < proposition.len() + 2 {
        return Err(Reason::TypeTooLong.at(0));
    }
    Ok(())
}
