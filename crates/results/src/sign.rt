// The result of a Sign.
ghost use Rattle.std.specs.Prelude.{ℕ};
ghost use Rattle.logic.specs.Term.{Term};
ghost use Rattle.rules.specs.Rule.{sign_type};
ghost use Rattle.rules.specs.Form.{TypeFormed};
ghost use Rattle.results.specs.Results.{Signs, Signable};

use logic::limit::MOST_TYPE_WORDS;
use logic::refusal::{Reason, Refusal};
use logic::word::{NAME_0, PROP, SAYS, payload_of};
use parts::copy;
use rules::front::front_is;
use rules::typed::Typed;

// The type of a Sign, at the front of the workspace, or the refusal. The Sign stands in the proof at `at`, up to `end`;
// its proposition's type is the first n words of the workspace.
pub fn sign(
    proof: &[u32],
    ws: &mut [u32],
    at: usize,
    n: usize,
    end: usize,
) -> Result<Typed, Refusal>
    requires { Signable proof.now ws.old at n end }
    ensures { (a : ℕ) → (q s : Term) → Signs proof.now ws.old at n end a q s
        → TypeFormed (sign_type at a q s) end ws.old ws.new result }
{
    if !front_is(ws, PROP) {
        return Err(Reason::ConditionFails.at(at));
    }
    // Says, the principal and the proposition
    let words = end - at + 1;
    if MOST_TYPE_WORDS < words {
        return Err(Reason::TypeTooLong.at(at));
    }
    ws[0] = SAYS;
    ws[1] = NAME_0 + payload_of(proof[at]);
    copy(proof, at + 1, words - 2, ws, 2);
    Ok(Typed { words, end })
}
