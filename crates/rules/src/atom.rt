// The type of a word that has no children and is no variable.
ghost use Rattle.std.specs.Prelude.{◌≡◌, List, ◌+◌};
ghost use Rattle.std.proofs.Math.Option.{some};
ghost use Rattle.logic.specs.Term.{Atom, constA, Term, atom_word, tag_of};
ghost use Rattle.logic.specs.Reading.{PlainAtom};
ghost use Rattle.rules.specs.Rule.{atom_type};
ghost use Rattle.rules.specs.Scope.{Declared};
ghost use Rattle.rules.specs.Form.{TypeFormed};
ghost use Rattle.rules.specs.Atoms.{sort_of, Constants as AtomReadable};

use crate::constants::Constants;
use crate::typed::Typed;
use logic::limit::MOST_TYPE_WORDS;
use logic::refusal::{Reason, Refusal};
use logic::word::{
    KIND_P, KIND_T, PRIN, STRING, TAG_CONSTANT, TAG_NAME, TAG_PROP, TAG_TEXT, TAG_TYPE, TYPE,
    payload_of, tag_of,
};
use parts::copy;

// The word of the type of an atom that is no constant, by the atom's tag.
fn sort(tag: u32) -> u32
    ensures { (a b : Atom) → PlainAtom a → tag ≡ tag_of (atom_word a) → sort_of a ≡ some b → result ≡ atom_word b }
{
    match tag {
        TAG_PROP => KIND_P,
        TAG_TYPE => KIND_T,
        TAG_TEXT => STRING,
        TAG_NAME => PRIN,
        // S and N have the type T
        _ => TYPE,
    }
}

// A constant's type is copied from the signature: the table says where it stands, behind its length word.
fn constant(constants: Constants, ws: &mut [u32], n: usize, at: usize) -> Result<Typed, Refusal>
    requires { AtomReadable constants.sig.now constants.table.now ws.old at }
    ensures { (Σ : List Term) → Declared constants.entry.sig.now constants.entry.table.now Σ
        → TypeFormed (atom_type Σ at (constA n)) (at + 1) ws.old ws.new result }
{
    let Constants { sig, table } = constants;
    if table.len() <= n {
        return Err(Reason::UnknownConstant.at(at));
    }
    let start = table[n] as usize;
    let words = sig[start - 1] as usize;
    if MOST_TYPE_WORDS < words {
        return Err(Reason::TypeTooLong.at(at));
    }
    copy(sig, start, words, ws, 0);
    Ok(Typed { words, end: at + 1 })
}

// The type of an atom's word.
pub fn atom(constants: Constants, ws: &mut [u32], word: u32, at: usize) -> Result<Typed, Refusal>
    requires { AtomReadable constants.sig.now constants.table.now ws.old at }
    ensures { (Σ : List Term) → (a : Atom) → Declared constants.entry.sig.now constants.entry.table.now Σ → word ≡ atom_word a → PlainAtom a
        → TypeFormed (atom_type Σ at a) (at + 1) ws.old ws.new result }
{
    let tag = tag_of(word);
    if tag == TAG_CONSTANT {
        return constant(constants, ws, payload_of(word) as usize, at);
    }
    ws[0] = sort(tag);
    Ok(Typed {
        words: 1,
        end: at + 1,
    })
}
