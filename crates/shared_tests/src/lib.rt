// The tests that calls share: 1 to 4, and of 5 the number of operations with their permits and receipts.
#![tactic(auto)]

pub mod signed;

ghost use Rattle.std.specs.Prelude.{◌≡◌, List, ℕ, ◌≤◌, leb, length};
ghost use Rattle.logic.specs.Answer.{answer};
ghost use Rattle.logic.specs.Limits.{most_constants};
ghost use Rattle.signature.specs.Listing.{SignatureReadable};
ghost use Rattle.register.specs.Records.{statement_of, header, latest};
ghost use Rattle.register.specs.Calls.{statement_test};
ghost use Rattle.shared_tests.specs.Shared.{lengths_test, lent_by, SignedAs, PreparedAs, OpenedAs};

use crate::signed::Signature;
use logic::limit::{LEAST_WORKSPACE, MOST_REGISTER};
use logic::refusal::{Reason, Refusal};
use logic::word::PAYLOADS;
use records::format::HEADER;
use records::header::read_header;
use records::walk::walk;
use rules::constants::Constants;
use signature::list::read_signature;
use signature::operations::operations;

// Tests 4 and 5: how many constants the signature has.
fn accept(signature: Signature, table: &mut [u32], ws: &mut [u32]) -> Result<usize, Refusal>
    requires { SignatureReadable table.old ws.old }
    ensures { SignedAs signature.entry.list.now signature.entry.operations table.new result }
{
    let count = read_signature(signature.list, table, ws)?;
    let constants = Constants {
        sig: signature.list,
        table: &table[..count],
    };
    if !operations(constants, signature.operations) {
        return Err(Reason::BadNumber.at(0));
    }
    Ok(count)
}

// Tests 1 and 2.
fn lengths(workspace: usize, register: usize) -> Result<(), Refusal>
    ensures { answer result ≡ lengths_test workspace register }
{
    if workspace < LEAST_WORKSPACE {
        return Err(Reason::WorkspaceShort.at(0));
    }
    if register < HEADER || MOST_REGISTER < register {
        return Err(Reason::RegisterLength.at(0));
    }
    Ok(())
}

// Test 5 of a statement's own numbers, in say and in open: "A first day after the last is 5".
pub fn good_statement(principal: u32, first: u32, last: u32) -> bool
    ensures { (words : List ℕ) → result ≡ statement_test (statement_of principal first last words) }
{
    principal < PAYLOADS && first <= last
}

// Test 23, of say and request: whether the day is not before the latest.
pub fn in_time(register: &[u32], day: u32) -> bool
    requires { header ≤ length register.now }
    ensures { result ≡ leb (latest register.now) day }
{
    read_header(register).latest <= day
}

// Tests 1, 2, 4 and 5, for open.
pub fn lend(
    signature: Signature,
    register: usize,
    table: &mut [u32],
    ws: &mut [u32],
) -> Result<usize, Refusal>
    requires { length table.old ≡ most_constants }
    ensures { OpenedAs (lent_by signature.entry ws.old) register table.new result }
{
    lengths(ws.len(), register)?;
    accept(signature, table, ws)
}

// Tests 1 to 5, for the other calls.
pub fn prepare(
    signature: Signature,
    register: &[u32],
    table: &mut [u32],
    ws: &mut [u32],
) -> Result<usize, Refusal>
    requires { length table.old ≡ most_constants }
    ensures { PreparedAs (lent_by signature.entry ws.old) register.now table.new result }
{
    lengths(ws.len(), register.len())?;
    walk(register)?;
    accept(signature, table, ws)
}
