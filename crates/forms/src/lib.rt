// The words of a proof in the shape of document 01's p: from a desk rule, and from a statement that the rule takes up.
#![tactic(auto)]

ghost use Rattle.std.specs.Prelude.{◌≡◌, ◌<◌};
ghost use Rattle.logic.specs.Limits.{payloads, most_operations};
ghost use Rattle.logic.specs.Term.{encode};
ghost use Rattle.forms.specs.Forms.{proof_form};

use logic::word::{
    APP, BIND, CONSTANT_0, NAME_0, PI, PRIN, RET, SAYS, SIGN_0, STRING, TEXT_0, VARIABLE_0,
};

// How many words the statement has, and the proof.
pub const CONSENT_WORDS: usize = 3;

pub const PROOF_WORDS: usize = 27;

const V1: u32 = VARIABLE_0 + 1;

const V2: u32 = VARIABLE_0 + 2;

// The proof that an extract is permitted for an operation: the rule is by the desk and on the constant q, the statement
// is App Cq of the extract, by the principal.
#[tactic(auto, unfolding(logic::specs::Term::encode))]
pub fn proof_words(operation: u32, q: u32, extract: u32, principal: u32) -> [u32; PROOF_WORDS]
    requires { (operation < most_operations) × (q < payloads) × (extract < payloads) × (principal < payloads) }
    ensures { result ≡ encode (proof_form operation q extract principal) }
{
    let permit = CONSTANT_0 + 2 * operation;
    let cq = CONSTANT_0 + q;
    let v = TEXT_0 + extract;
    let a = NAME_0 + principal;
    let sign = SIGN_0 + principal;
    [
        BIND, SIGN_0, PI, STRING, PI, PRIN, PI, SAYS, VARIABLE_0, APP, cq, V1, APP, permit, V2,
        RET, NAME_0, APP, APP, APP, VARIABLE_0, v, a, sign, APP, cq, v,
    ]
}
