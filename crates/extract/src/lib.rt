// Extract: a request, and behind its grant every home of a list with its survey code. "It works from the register's
// published answers only": nothing here reads a word of the register.
#![tactic(auto)]

ghost use Rattle.records.specs.Entries.{asked};
ghost use Rattle.shared_tests.specs.Shared.{lent_by};
ghost use Rattle.extract.specs.Extract.{ExtractedAs};

use homes::{join, well_formed};
use logic::refusal::{Reason, Refusal};
use records::entry::Ask;
use request::request;
use shared_tests::signed::Signature;

// First the form, then the request; the output is written behind the grant.
pub fn extract(
    signature: Signature,
    register: &mut [u32],
    ask: Ask,
    ws: &mut [u32],
    homes: &[u32],
    surveys: &[u32],
    out: &mut [u32],
) -> Result<(), Refusal>
    ensures { ExtractedAs (lent_by signature.entry ws.old) register.old (asked ask.entry) homes.now surveys.now
        register.new out.old out.new result }
{
    if !well_formed(homes, surveys, out.len()) {
        return Err(Reason::OutOfForm.at(0));
    }
    request(signature, register, ask, ws)?;
    join(homes, surveys, out);
    Ok(())
}
