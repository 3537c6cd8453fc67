// The type at the front of the workspace.
ghost use Rattle.std.specs.Prelude.{◌≡◌, ◌<◌, length};
ghost use Rattle.logic.specs.Term.{Atom, Term, atom, atom_word};
ghost use Rattle.logic.specs.Infer.{same};
ghost use Rattle.logic.specs.Reading.{InRangeAtom};
ghost use Rattle.words.specs.Typed.{TypeAt};

// The words of a local buffer for a type that is not long: local buffers are cleared only where they must be.
pub const SMALL: usize = 32;

// Whether the type at the front is the atom of this word; no other type begins with it.
pub fn front_is(ws: &[u32], word: u32) -> bool
    requires { 0 < length ws.now }
    ensures { (A : Term) → (a : Atom) → TypeAt ws.now 0 A → word ≡ atom_word a → InRangeAtom a → result ≡ same A (atom a) }
{
    ws[0] == word
}
