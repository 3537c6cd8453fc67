// The check of a term under a signature without a register, for the benchmark.
#![tactic(auto)]

ghost use Rattle.std.specs.Prelude.{◌≡◌, length};
ghost use Rattle.logic.specs.Answer.{answer};
ghost use Rattle.logic.specs.Result.{number_of, without_value};
ghost use Rattle.timed.specs.Timed.{timed_tests};

use logic::limit::{LEAST_WORKSPACE, MOST_CONSTANTS, MOST_NESTING, MOST_WORDS};
use logic::refusal::{Reason, Refusal};
use rules::constants::Constants;
use signature::list::read_signature;
use typing::check::check_term;

// Tests 1, 4 and 6 to 12.
fn tests(signature: &[u32], term: &[u32], workspace: &mut [u32]) -> Result<(), Refusal>
    ensures { answer result ≡ without_value (timed_tests (length workspace.old) signature.now term.now) }
{
    if workspace.len() < LEAST_WORKSPACE {
        return Err(Reason::WorkspaceShort.at(0));
    }
    let mut table = [0u32; MOST_CONSTANTS];
    let count = read_signature(signature, &mut table, workspace)?;
    let constants = Constants {
        sig: signature,
        table: &table[..count],
    };
    check_term(constants, term, MOST_WORDS, MOST_NESTING, workspace)?;
    Ok(())
}

// The C interface: the number of the test that refuses, or 0.
#[unsafe(no_mangle)]
pub extern "C" fn timed_check(signature: &[u32], term: &[u32], workspace: &mut [u32]) -> u32
    ensures { result ≡ number_of (timed_tests (length workspace.old) signature.now term.now) }
{
    match tests(signature, term, workspace) {
        Ok(()) => 0,
        Err(refusal) => u32::from(refusal.reason),
    }
}
