// The conclusion of a type.
ghost use Rattle.std.specs.Prelude.{◌≡◌};
ghost use Rattle.logic.specs.Term.{Term};
ghost use Rattle.logic.specs.Infer.{proposition as is-proposition};
ghost use Rattle.words.specs.Typed.{TypeAt, TypeStands};

use crate::skip;
use logic::word::{TAG_BIND, TAG_PI, TAG_VARIABLE, tag_of};

// Whether what is left of the type that stands at `at`, behind its leading Pis, is none of P, T, S, N, KindP and KindT.
pub fn proposition(words: &[u32], at: usize) -> bool
    requires { TypeStands words.now at }
    ensures { (A : Term) → TypeAt words.now at A → result ≡ is-proposition A }
{
    match tag_of(words[at]) {
        TAG_PI => {
            let body = skip(words, at + 1);
            proposition(words, body)
        }
        TAG_VARIABLE..=TAG_BIND => true,
        _ => false,
    }
}
