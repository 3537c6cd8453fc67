// The two converters.
ghost use Rattle.std.specs.Prelude.{◌+◌, length};
ghost use Rattle.logic.specs.Answer.{answer};
ghost use Rattle.editions.specs.Named.{Named, size'};
ghost use Rattle.editions.specs.Convert.{convert as convert-term, converted, from_named, to_named};
ghost use Rattle.named.specs.Answers.{in_scope, EditionAt, Convertible, WroteTerm, ConvertedAs};

use crate::edition::{unnamed, unnamed_words};
use crate::scope::Scope;
use editions::Edition;
use logic::limit::{MOST_NESTING, MOST_WORDS};
use logic::refusal::{Reason, Refusal};
use logic::word::{Class, VARIABLE_0, class_of, payload_of};
use words::term::term_test;

// Converts the term that stands at `at`, in the body of the binders whose names are in scope, and writes it at the same
// place of out. Answers where the term ends, or its first variable that has no binder.
fn convert_term(
    edition: Edition,
    words: &[u32],
    at: usize,
    scope: &Scope,
    out: &mut [u32],
) -> Result<usize, Refusal>
    requires { Convertible edition words.now at (in_scope scope.now) out.old }
    ensures { (s : Named) → EditionAt edition words.now at s
        → WroteTerm (convert-term edition (in_scope scope.now) at s) at (at + size' s) out.old out.new (answer result) }
{
    let word = words[at];
    let class = class_of(unnamed(edition, word));
    if class == Class::Variable {
        let meant = scope
            .meaning(edition, payload_of(word))
            .ok_or(Reason::Unbound.at(at))?;
        out[at] = VARIABLE_0 + meant;
        return Ok(at + 1);
    }
    out[at] = scope.relabelled(edition, class, word);
    match class {
        // "A Sign's proposition starts with no names"
        Class::Sign => convert_term(edition, words, at + 1, &Scope::new(), out),
        // a domain, and the proof of a Bind, are not in the body
        Class::Node | Class::Binder => {
            let inner = scope.entered(edition, class, word);
            let next = convert_term(edition, words, at + 1, scope, out)?;
            convert_term(edition, words, next, &inner, out)
        }
        _ => Ok(at + 1),
    }
}

// Tests 6 to 8, then 24, then 25, then the words of the term in the other edition.
fn convert(edition: Edition, term: &[u32], output: &mut [u32]) -> Result<usize, Refusal>
    ensures { ConvertedAs (converted edition term.now (length output.old))
        output.old output.new (answer result) }
{
    let len = term.len();
    if MOST_WORDS < len {
        return Err(Reason::TermLength.at(0));
    }
    let mut work = [0; MOST_WORDS];
    unnamed_words(edition, term, &mut work);
    term_test(&work[..len], MOST_WORDS, MOST_NESTING)?;
    convert_term(edition, term, 0, &Scope::new(), &mut work)?;
    if output.len() < len {
        return Err(Reason::OutputShort.at(0));
    }
    output[..len].copy_from_slice(&work[..len]);
    Ok(len)
}

// Converts a term with names into document 01's words.
pub fn from_named(term: &[u32], output: &mut [u32]) -> Result<usize, Refusal>
    ensures { ConvertedAs (from_named term.now (length output.old))
        output.old output.new (answer result) }
{
    convert(Edition::Names, term, output)
}

// Converts a term of document 01 into one with names.
pub fn to_named(term: &[u32], output: &mut [u32]) -> Result<usize, Refusal>
    ensures { ConvertedAs (to_named term.now (length output.old))
        output.old output.new (answer result) }
{
    convert(Edition::Counts, term, output)
}
