// Moving a term across binders.
ghost use Rattle.std.specs.Prelude.{◌≡◌, ◌+◌, ◌-◌, ◌≤◌, ◌<◌, length, nat_abs};
ghost use Rattle.logic.specs.Limits.{payloads};
ghost use Rattle.logic.specs.Term.{Term};
ghost use Rattle.logic.specs.Move.{moved as moved_by};
ghost use Rattle.words.specs.Place.{At, Is};
ghost use Rattle.moves.specs.Shift.{Shiftable, ShiftableWhole, Shifted};

use logic::word::{Class, VARIABLE_0, class_of, payload_of};
use parts::{copy, skip};

// What a shift answers: how many words the term has, and "how many it met, each as often as it stands and also for a
// shift by 0": the variables that stand free from c on.
#[derive(Clone, Copy)]
pub struct Shift {
    pub words: usize,
    pub free: usize,
}

// "shifts every free variable up or down by a signed amount": a variable's number and the amount are added as i32, and
// both casts are lossless.
fn moved(n: u32, amount: i32) -> u32
    requires { (n < payloads) × (nat_abs amount ≤ payloads) }
    ensures { (result ≡ moved_by amount n) × (result ≤ payloads + payloads) }
{
    let m = n as i32 + amount;
    if m < 0 { 0 } else { m as u32 }
}

// Moves the variables that are free under c binders by `amount`, in the term that stands at `at`, in place, and counts
// them.
pub fn shift_within(words: &mut [u32], at: usize, c: u32, amount: i32) -> Shift
    requires { Shiftable words.old at c amount (length words.old - at) }
    ensures { (t : Term) → At words.old at t → Shifted t c amount words.old at words.new result }
{
    let word = words[at];
    match class_of(word) {
        Class::Variable => {
            let n = payload_of(word);
            if n < c {
                return Shift { words: 1, free: 0 };
            }
            words[at] = VARIABLE_0 + moved(n, amount);
            Shift { words: 1, free: 1 }
        }
        class @ (Class::Node | Class::Binder) => {
            let a = shift_within(words, at + 1, c, amount);
            let inner = c + u32::from(class == Class::Binder);
            let b = shift_within(words, at + 1 + a.words, inner, amount);
            Shift {
                words: 1 + a.words + b.words,
                free: a.free + b.free,
            }
        }
        // an atom, or a Sign, whose proposition is closed: nothing to move
        _ => Shift {
            words: skip(words, at) - at,
            free: 0,
        },
    }
}

// The same for a term that src holds: its words are copied into out from `to` on, and shifted there.
pub fn shift_into(src: &[u32], c: u32, amount: i32, out: &mut [u32], to: usize) -> Shift
    requires { ShiftableWhole src.now c amount (length out.old - to) }
    ensures { (t : Term) → Is src.now t → Shifted t c amount out.old to out.new result }
{
    copy(src, 0, src.len(), out, to);
    shift_within(out, to, c, amount)
}
