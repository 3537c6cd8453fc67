// Filling a body: a variable is replaced by a term, which is raised under each binder passed.
ghost use Rattle.std.specs.Prelude.{ℕ, ◌+◌, ◌-◌, ◌≤◌, ◌<◌, length};
ghost use Rattle.logic.specs.Term.{Term, var};
ghost use Rattle.logic.specs.Move.{fill_at};
ghost use Rattle.words.specs.Place.{At, Is};
ghost use Rattle.moves.specs.Fill.{Fillable, FilledTo};

use crate::shift::shift_into;
use logic::word::{Class, VARIABLE_0, class_of, payload_of};
use parts::{copy, skip};

// Where the next term starts and where the words written end.
#[derive(Clone, Copy)]
pub struct Filled {
    pub next: usize,
    pub end: usize,
}

// Fills where a variable stands, if there is room: the filler is raised over the c binders passed.
fn fill_variable(
    src: &[u32],
    at: usize,
    c: u32,
    filler: &[u32],
    out: &mut [u32],
    to: usize,
) -> Option<Filled>
    requires { (to ≤ length out.old) × Fillable src.now at c filler.now }
    ensures { (n : ℕ) → (e : Term) → At src.now at (var n) → Is filler.now e
        → FilledTo (var n) (fill_at c e (var n)) at out.old to out.new result }
{
    let word = src[at];
    let n = payload_of(word);
    if n == c {
        if out.len() - to < filler.len() {
            return None;
        }
        let raised = shift_into(filler, 0, c as i32, out, to);
        return Some(Filled {
            next: at + 1,
            end: to + raised.words,
        });
    }
    if out.len() <= to {
        return None;
    }
    out[to] = if n < c { word } else { VARIABLE_0 + (n - 1) };
    Some(Filled {
        next: at + 1,
        end: to + 1,
    })
}

// Writes the words of the term that stands at `at`, variable c replaced by the filler, into out from `to` on, as far as
// there is room.
pub fn fill_into(
    src: &[u32],
    at: usize,
    c: u32,
    filler: &[u32],
    out: &mut [u32],
    to: usize,
) -> Option<Filled>
    requires { (to ≤ length out.old) × Fillable src.now at c filler.now }
    ensures { (t e : Term) → At src.now at t → Is filler.now e
        → FilledTo t (fill_at c e t) at out.old to out.new result }
{
    let mut start = at;
    let mut depth = c;
    let mut place = to;
    loop {
        let word = src[start];
        match class_of(word) {
            Class::Variable => return fill_variable(src, start, depth, filler, out, place),
            Class::Sign => {
                // a signed proposition is closed, and is left unchanged
                let next = skip(src, start);
                let n = next - start;
                if out.len() - place < n {
                    return None;
                }
                copy(src, start, n, out, place);
                return Some(Filled {
                    next,
                    end: place + n,
                });
            }
            class => {
                if out.len() <= place {
                    return None;
                }
                out[place] = word;
                if class == Class::Atom {
                    return Some(Filled {
                        next: start + 1,
                        end: place + 1,
                    });
                }
                let first = fill_into(src, start + 1, depth, filler, out, place + 1)?;
                // the second child is filled in the node's place
                start = first.next;
                place = first.end;
                depth += u32::from(class == Class::Binder);
            }
        }
    }
}
