// The names in scope: those of the binders in whose body a word stands, within its Sign if any.
ghost use Rattle.std.specs.Prelude.{◌≤◌};
ghost use Rattle.logic.specs.Limits.{most_nesting};

use editions::Edition;
use logic::limit::MOST_NESTING;
use logic::word::{Class, PAYLOADS, payload_of, tag_of};

// The names are those from `start` on, that of the nearest binder first. Nesting is at most 32, so they fit.
// A fixed array: project rule (fixed memory, no heap).
#[derive(Clone, Copy)]
pub struct Scope {
    pub names: [u32; MOST_NESTING],
    pub start: usize,
    ghost within: { start ≤ most_nesting },
}

impl Scope {
    ghost use Rattle.std.specs.Prelude.{◌≡◌, true, List, [], ◌∷◌, ℕ, ◌≤◌, ◌<◌, length};
    ghost use Rattle.logic.specs.Limits.{most_nesting};
    ghost use Rattle.logic.specs.Term.{payload_of};
    ghost use Rattle.editions.specs.Convert.{nearest as nearest-of, meaning as meaning-of, enter};
    ghost use Rattle.named.specs.Answers.{in_scope, enter_by, relabel_by, meant};

    // No names.
    pub fn new() -> Scope
        ensures { in_scope result ≡ [] }
    {
        Scope {
            names: [0; MOST_NESTING],
            start: MOST_NESTING,
        }
    }

    fn nearest_first(&self) -> &[u32]
        ensures { result.now ≡ in_scope self.now }
    {
        &self.names[self.start..]
    }

    // "a name means the nearest binder that carries it": how many binders are nearer.
    fn nearest(&self, name: u32) -> Option<u32>
        ensures { meant result ≡ nearest-of name (in_scope self.now) }
    {
        self.nearest_first()
            .iter()
            .position(|n| *n == name)
            .map(|n| n as u32)
    }

    // What a variable becomes in the other edition; none if it has no binder.
    pub fn meaning(&self, edition: Edition, variable: u32) -> Option<u32>
        ensures { meant result ≡ meaning-of edition variable (in_scope self.now) }
    {
        match edition {
            Edition::Names => self.nearest(variable),
            Edition::Counts => self.nearest_first().get(variable as usize).copied(),
        }
    }

    // The name of a binder in this scope: its own, or in document 01's edition the count of the names.
    fn own_name(&self, edition: Edition, word: u32) -> u32
        ensures { enter edition true (payload_of word) (in_scope self.now) ≡ result ∷ in_scope self.now }
    {
        match edition {
            Edition::Names => payload_of(word),
            Edition::Counts => self.nearest_first().len() as u32,
        }
    }

    // The names in scope in the second child of a node of this class with this word.
    #[tactic(auto, using(crate::proofs::Scopes::entered_binder))]
    pub fn entered(&self, edition: Edition, class: Class, word: u32) -> Scope
        requires { length (in_scope self.now) < most_nesting }
        ensures { in_scope result ≡ enter_by edition class word (in_scope self.now) }
    {
        if class != Class::Binder {
            return *self;
        }
        let mut inner = *self;
        inner.start -= 1;
        inner.names[inner.start] = self.own_name(edition, word);
        inner
    }

    // A word of this class in the other edition: a binder has the name there that it gets in this scope.
    #[tactic(auto, using(crate::proofs::Scopes::relabelled_names, crate::proofs::Scopes::relabelled_counts))]
    pub fn relabelled(&self, edition: Edition, class: Class, word: u32) -> u32
        ensures { result ≡ relabel_by edition class word (in_scope self.now) }
    {
        if class != Class::Binder {
            return word;
        }
        let bare = tag_of(word) * PAYLOADS;
        match edition {
            Edition::Names => bare,
            Edition::Counts => bare + self.nearest_first().len() as u32,
        }
    }
}
