// Tests 6 to 8: whether words are one term within limits.
ghost use Rattle.std.specs.Prelude.{◌≡◌};
ghost use Rattle.logic.specs.Answer.{answer};
ghost use Rattle.logic.specs.Result.{without_value};
ghost use Rattle.logic.specs.Check.{term_of};

use crate::nesting::nested_whole;
use crate::read::read_whole;
use logic::refusal::{Reason, Refusal};

// Of a term of at most `most` words, nested at most `deep`.
pub fn term_test(words: &[u32], most: usize, deep: usize) -> Result<(), Refusal>
    ensures { answer result ≡ without_value (term_of most deep words.now) }
{
    let len = words.len();
    if len < 1 || most < len {
        return Err(Reason::TermLength.at(0));
    }
    read_whole(words)?;
    nested_whole(words, deep)?;
    Ok(())
}
