// The result of an App.
ghost use Rattle.logic.specs.Term.{Term};
ghost use Rattle.rules.specs.Rule.{app_type};
ghost use Rattle.rules.specs.Form.{TypeFormed};
ghost use Rattle.results.specs.Results.{Applies, Appliable};

use logic::limit::MOST_TYPE_WORDS;
use logic::refusal::{Reason, Refusal};
use moves::fill::fill_into;
use parts::{copy, same};
use rules::front::SMALL;
use rules::typed::Typed;

// The type of an App, at the front of the workspace, or the refusal. The function's type is the first n words of the
// workspace, the argument's type the m after them; the argument stands at `next` in the proof, up to `end`.
pub fn apply(
    proof: &[u32],
    ws: &mut [u32],
    at: usize,
    next: usize,
    n: usize,
    m: usize,
    end: usize,
) -> Result<Typed, Refusal>
    requires { Appliable proof.now ws.old next n m end }
    ensures { (d C e E : Term) → Applies proof.now ws.old next n m end d C e E
        → TypeFormed (app_type at d C e E) end ws.old ws.new result }
{
    // behind the word Pi stand the domain's words: the argument's type is the domain exactly if its words stand there
    // too, for no term's words begin another's
    let body = 1 + m;
    let held = &ws[..];
    if n <= body || !same(&held[1..body], &held[n..n + m]) {
        return Err(Reason::ArgumentMismatch.at(at));
    }
    let filler = &proof[next..end];
    // most types are short: the large buffer is cleared only for one that the small one has no room for
    let mut small = [0u32; SMALL];
    if let Some(filled) = fill_into(ws, body, 0, filler, &mut small, 0) {
        let words = filled.end;
        copy(&small, 0, words, ws, 0);
        return Ok(Typed { words, end });
    }
    let mut large = [0u32; MOST_TYPE_WORDS];
    let Some(filled) = fill_into(ws, body, 0, filler, &mut large, 0) else {
        return Err(Reason::TypeTooLong.at(at));
    };
    let words = filled.end;
    copy(&large, 0, words, ws, 0);
    Ok(Typed { words, end })
}
