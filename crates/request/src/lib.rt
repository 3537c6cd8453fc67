// Request: a grant and its receipt, where the proof is one of the desk's permission.
#![tactic(auto)]

pub mod tests;

ghost use Rattle.std.specs.Prelude.{◌≡◌};
ghost use Rattle.logic.specs.Answer.{answer};
ghost use Rattle.register.specs.Calls.{request_call};
ghost use Rattle.records.specs.Entries.{asked};
ghost use Rattle.shared_tests.specs.Shared.{lent_by};
ghost use Rattle.request.specs.Requested.{RequestedAs};

use crate::tests::request_tests;
use logic::limit::MOST_CONSTANTS;
use logic::refusal::Refusal;
use records::entry::Ask;
use search::view::view_of;
use shared_tests::prepare;
use shared_tests::signed::Signature;
use write_records::add_grant;

// All tests of a request.
fn grantable(
    signature: Signature,
    register: &[u32],
    ask: Ask,
    ws: &mut [u32],
) -> Result<(), Refusal>
    ensures { answer result ≡ request_call (lent_by signature.entry ws.old) register.now (asked ask.entry) }
{
    let mut table = [0u32; MOST_CONSTANTS];
    let count = prepare(signature, register, &mut table, ws)?;
    // to fill buckets would take as long as the search of one request
    let empty = [0usize; 1];
    request_tests(
        signature,
        &table[..count],
        view_of(register),
        &empty,
        &[],
        ask,
        ws,
    )
}

// A request that is granted adds its grant and its receipt, and sets the latest day. Nothing is written before the last
// test has passed.
pub fn request(
    signature: Signature,
    register: &mut [u32],
    ask: Ask,
    ws: &mut [u32],
) -> Result<(), Refusal>
    ensures { RequestedAs (lent_by signature.entry ws.old) register.old (asked ask.entry) register.new result }
{
    grantable(signature, register, ask, ws)?;
    add_grant(register, ask);
    Ok(())
}
