// The words of document 01's sample, each under the name that the document gives it, and of document 02's examples.
#![tactic(auto)]

ghost use Rattle.std.specs.Prelude.{◌≤◌, length};

use logic::word::{
    APP, BIND, CONSTANT_0, LAM, NAME_0, PI, PRIN, PROP, SAYS, SIGN_0, STRING, TEXT_0, VARIABLE_0,
};

pub const P: u32 = PROP;

pub const S: u32 = STRING;

const N: u32 = PRIN;

pub const V0: u32 = VARIABLE_0;

const V1: u32 = VARIABLE_0 + 1;

const V2: u32 = VARIABLE_0 + 2;

pub const C0: u32 = CONSTANT_0;

const C1: u32 = C0 + 1;

pub const C2: u32 = C0 + 2;

const C3: u32 = C0 + 3;

pub const C9: u32 = C0 + 9;

pub const S7: u32 = TEXT_0 + 7;

const S9: u32 = TEXT_0 + 9;

pub const A0: u32 = NAME_0;

pub const A3: u32 = A0 + 3;

const A4: u32 = A0 + 4;

const A5: u32 = A0 + 5;

pub const SIGN3: u32 = SIGN_0 + 3;

pub const SIGN4: u32 = SIGN_0 + 4;

const SIGN5: u32 = SIGN_0 + 5;

pub const RET: u32 = logic::word::RET;

// The operations of the sample.
pub const OPERATIONS: u32 = 1;

// Document 02, slip 5: the day of the calls, and the days of what is said; those of the rule r.
pub const TODAY: u32 = 15;

pub const FROM: u32 = 12;

pub const UNTIL: u32 = 18;

const RULE_FROM: u32 = 10;

const RULE_UNTIL: u32 = 20;

// Lays block into out again and again, and last at its end.
fn lay(block: &[u32], last: &[u32], out: &mut [u32])
    requires { length last.now ≤ length out.old }
{
    let (front, end) = out.split_at_mut(out.len() - last.len());
    for (word, &laid) in front.iter_mut().zip(block.iter().cycle()) {
        *word = laid;
    }
    end.copy_from_slice(last);
}

// So many words, laid so.
fn laid<const N: usize>(block: &[u32], last: &[u32]) -> [u32; N]
    requires { length last.now ≤ N }
{
    let mut words = [0; N];
    lay(block, last, &mut words);
    words
}

// C0 = Pi S P, C1 = Pi S Pi S P, C2 = Pi S P, C3 = Pi App C2 s7 P, with a length word before each.
pub fn signature() -> [u32; 20] {
    let first = [3, PI, S, P, 5, PI, S, PI, S, P];
    let second = [3, PI, S, P, 5, PI, APP, C2, S7, P];
    laid(&first, &second)
}

// The proposition of r = Sign0 Pi S Pi N Pi Says V0 App C2 V1 App C0 V2.
fn rule() -> [u32; 13] {
    [PI, S, PI, N, PI, SAYS, V0, APP, C2, V1, APP, C0, V2]
}

// The rule list of r alone: principal, first day, last day, length, proposition.
pub fn rules() -> [u32; 17] {
    laid(&[0, RULE_FROM, RULE_UNTIL, 13], &rule())
}

// Bind r, and what is behind it.
fn bind_rule() -> [u32; 15] {
    laid(&[BIND, SIGN_0], &rule())
}

// p = Bind r Ret a0 App App App V0 s7 a3 Sign3 App C2 s7.
pub fn proof() -> [u32; 27] {
    let body = [RET, A0, APP, APP, APP, V0, S7, A3, SIGN3, APP, C2, S7];
    laid(&bind_rule(), &body)
}

// p with two parts that it does not need: Bind r once more before it, whose variable is unused, and what a3 says handed
// to a Lam. Bind r Bind r App Lam Says a3 App C2 s7 Ret a0 App App App V1 s7 a3 V0 Sign3 App C2 s7.
pub fn longer_proof() -> [u32; 50] {
    let body = [
        APP, LAM, SAYS, A3, APP, C2, S7, RET, A0, APP, APP, APP, V1, S7, A3, V0, SIGN3, APP, C2, S7,
    ];
    laid(&bind_rule(), &body)
}

// What the receipt of request 0, 7, 9 states, as a Sign: Sign0 App App C1 s7 s9.
pub fn receipt() -> [u32; 6] {
    [SIGN_0, APP, APP, C1, S7, S9]
}

// A proof of what p proves that uses that receipt too: Bind Sign0 App App C1 s7 s9 and then p.
fn proof_by_receipt() -> [u32; 34] {
    let mut words = [BIND; 34];
    lay(&receipt(), &proof(), &mut words[1..]);
    words
}

// Request 0, 7, 9 with p as an item of a batch: operation, extract, delivery, length, proof.
fn item() -> [u32; 31] {
    laid(&[0, 7, 9, 27], &proof())
}

// Request 0, 7, 10 with the proof that uses the receipt of the request before, as an item.
fn item_by_receipt() -> [u32; 38] {
    laid(&[0, 7, 10, 34], &proof_by_receipt())
}

// The two items.
pub fn items_in_turn() -> [u32; 69] {
    laid(&item(), &item_by_receipt())
}

// They in the other order.
pub fn items_in_other_order() -> [u32; 69] {
    laid(&item_by_receipt(), &item())
}

// A = App C2 s7, which a3 says.
pub fn statement() -> [u32; 3] {
    [APP, C2, S7]
}

// Document 01's escaping proof, where a3 is the principal a: Lam Pi A Says a App C3 V0 Bind Sign3 A App V1 V0.
pub fn escaping(principal: u32) -> [u32; 18] {
    let first = [LAM, PI, APP, C2, S7, SAYS, principal, APP, C3, V0];
    let last = [BIND, SIGN3, APP, C2, S7, APP, V1, V0];
    laid(&first, &last)
}

// "For every property Q of homes, what this surveyor says of Q holds", of a5:
// Pi Pi S P Pi S Pi Says a5 App V1 V0 App V2 V1.
pub fn trust() -> [u32; 15] {
    [PI, PI, S, P, PI, S, PI, SAYS, A5, APP, V1, V0, APP, V2, V1]
}

// Bind Sign4 of that trust, Ret a4 App App App V0 C2 s7 Sign5 App C2 s7.
pub fn trusting() -> [u32; 29] {
    let body = [RET, A4, APP, APP, APP, V0, C2, S7, SIGN5, APP, C2, S7];
    let mut words = [BIND; 29];
    words[1] = SIGN4;
    lay(&trust(), &body, &mut words[2..]);
    words
}

// Pi D, where D = Pi A Pi A A.
fn long_domain() -> [u32; 12] {
    [PI, PI, APP, C2, S7, PI, APP, C2, S7, APP, C2, S7]
}

// Pi D 18 times, Pi E 3 times and App C3 App V0 Sign3 A, where E = Pi Says a3 A A. A Sign makes the number of words
// even.
pub fn statement_254() -> [u32; 254] {
    let domain = [PI, PI, SAYS, A3, APP, C2, S7, APP, C2, S7];
    let body = [APP, C3, APP, V0, SIGN3, APP, C2, S7];
    let last: [u32; 38] = laid(&domain, &body);
    laid(&long_domain(), &last)
}

// Pi D 21 times and A.
pub fn statement_255() -> [u32; 255] {
    laid(&long_domain(), &statement())
}

// Pi S 32 times and P.
pub fn deep() -> [u32; 65] {
    laid(&[PI, S], &[P])
}
