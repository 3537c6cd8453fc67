// Parts of lists of words: where a term ends, whether two are the same, copies; where a type stands; propositions.
#![tactic(auto)]

pub mod lookup;
pub mod proposition;

ghost use Rattle.std.specs.Prelude.{◌≡◌, true, false, ◌+◌, ◌≤◌, ◌<◌, length, drop, take};
ghost use Rattle.logic.specs.Term.{Term, size};
ghost use Rattle.words.specs.Place.{At, Copyable, Stands, written_at};

use logic::word::children;

// Where the term that stands at `at` ends: each word is one term less to come, and as many more as it has children.
pub fn skip(words: &[u32], at: usize) -> usize
    requires { Stands words.now at }
    ensures { (t : Term) → At words.now at t → result ≡ at + size t }
{
    let mut next = at;
    let mut count: usize = 1;
    while 0 < count {
        count = count - 1 + children(words[next]).unwrap();
        next += 1;
    }
    next
}

// Whether a and b hold the same words.
pub fn same(a: &[u32], b: &[u32]) -> bool
    ensures { (result ≡ true → a.now ≡ b.now) × (a.now ≡ b.now → result ≡ true) }
{
    a.len() == b.len() && equal_words(a, b)
}

// Whether a and b, which are equally long, hold the same words: compared word by word, which for the few words of a
// statement is faster than the library's `==`.
pub fn equal_words(a: &[u32], b: &[u32]) -> bool
    requires { length a.now ≡ length b.now }
    ensures { (result ≡ true → a.now ≡ b.now) × (a.now ≡ b.now → result ≡ true) }
{
    for i in 0..a.len() {
        if a[i] != b[i] {
            return false;
        }
    }
    true
}

// Copies n words of src from `at` on into out from `to` on. A loop, and not the library's `copy_from_slice`: of lists that
// a host lends nothing says to the compiler that they are apart, and it would call C's memmove for them.
pub fn copy(src: &[u32], at: usize, n: usize, out: &mut [u32], to: usize)
    requires { (at + n ≤ length src.now) × (to + n ≤ length out.old) }
    ensures { out.new ≡ written_at out.old to (take n (drop at src.now)) }
{
    for i in 0..n {
        out[to + i] = src[at + i];
    }
}

// Copies src over out, which is as long.
pub fn copy_all(src: &[u32], out: &mut [u32])
    requires { length src.now ≡ length out.old }
    ensures { out.new ≡ src.now }
{
    copy(src, 0, src.len(), out, 0);
}

// Copies n words from `at` on to `to` on, in one list; a loop for the same reason.
pub fn copy_within(words: &mut [u32], at: usize, n: usize, to: usize)
    requires { Copyable (length words.old) at n to }
    ensures { words.new ≡ written_at words.old to (take n (drop at words.old)) }
{
    for i in 0..n {
        words[to + i] = words[at + i];
    }
}
