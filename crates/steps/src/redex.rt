// Where the first step is taken.
ghost use Rattle.std.specs.Prelude.{◌≡◌, eqb, length};
ghost use Rattle.logic.specs.Term.{Term};
ghost use Rattle.logic.specs.Move.{occurs};
ghost use Rattle.words.specs.Place.{At};
ghost use Rattle.steps.specs.Redex.{TermWithRoom, first_place, redex_answer};

use logic::word::{APP, BIND, LAM, RET};
use moves::shift::shift_into;
use parts::skip;

// Whether the body that stands at `at` does not use its binder. "Counted from a body's variable 0 on and from 1 on, the
// two differ by the uses of its binder": a shift by 0 counts, of a copy of the body in `scratch`.
fn unused(words: &[u32], at: usize, scratch: &mut [u32]) -> bool
    requires { TermWithRoom words.now at (length scratch.old) }
    ensures { (b : Term) → At words.now at b → result ≡ eqb (occurs 0 b) 0 }
{
    let body = &words[at..skip(words, at)];
    let from_0 = shift_into(body, 0, 0, scratch, 0).free;
    let from_1 = shift_into(body, 1, 0, scratch, 0).free;
    from_0 == from_1
}

// The place of the first step of the term that stands at `at`, if there is one: a node's own comes before those in its
// children. What `scratch` holds afterwards is free.
pub fn first_step(words: &[u32], at: usize, scratch: &mut [u32]) -> Option<usize>
    requires { TermWithRoom words.now at (length scratch.old) }
    ensures { (t : Term) → At words.now at t → redex_answer result ≡ first_place at t }
{
    match words[at] {
        APP if words[at + 1] == LAM => Some(at),
        APP => first_step(words, at + 1, scratch),
        BIND if words[at + 1] == RET => Some(at),
        BIND => {
            let body = skip(words, at + 1);
            if unused(words, body, scratch) {
                return Some(at);
            }
            match first_step(words, at + 1, scratch) {
                Some(place) => Some(place),
                None => first_step(words, body, scratch),
            }
        }
        LAM | RET => {
            let second = skip(words, at + 1);
            first_step(words, second, scratch)
        }
        _ => None,
    }
}
