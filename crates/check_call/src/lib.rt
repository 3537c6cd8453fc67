// Check: the type of a term.
#![tactic(auto)]

ghost use Rattle.std.specs.Prelude.{length, IfOk, IfErr};
ghost use Rattle.typing.specs.Check.{Judged};
ghost use Rattle.register.specs.Calls.{check_call};
ghost use Rattle.check_call.specs.Answers.{TypeIs, RefusedBy};
ghost use Rattle.shared_tests.specs.Shared.{lent_by};

use logic::limit::{MOST_CONSTANTS, MOST_NESTING, MOST_WORDS};
use logic::refusal::Refusal;
use rules::constants::Constants;
use rules::typed::Typed;
use search::statement::in_register;
use shared_tests::prepare;
use shared_tests::signed::Signature;
use signs::first_miss;
use sought::When;
use typing::check::check_term;

// Tests 1 to 12 and 14. The type stands at the front of the workspace.
pub fn judge(
    signature: Signature,
    register: &[u32],
    day: u32,
    term: &[u32],
    ws: &mut [u32],
) -> Result<Typed, Refusal>
    ensures { Judged (check_call (lent_by signature.entry ws.old) register.now day term.now)
        (length term.now) ws.new result }
{
    let mut table = [0u32; MOST_CONSTANTS];
    let count = prepare(signature, register, &mut table, ws)?;
    let constants = Constants {
        sig: signature.list,
        table: &table[..count],
    };
    let typed = check_term(constants, term, MOST_WORDS, MOST_NESTING, ws)?;
    first_miss(in_register(register), term, When::On(day))?;
    Ok(typed)
}

// "hands back the type as a part of the workspace": exactly the type's words.
pub fn check<'a>(
    signature: Signature,
    register: &[u32],
    day: u32,
    term: &[u32],
    ws: &'a mut [u32],
) -> Result<&'a mut [u32], Refusal>
    ensures part { IfOk result (λ part. TypeIs (check_call (lent_by signature.entry ws.old) register.now day term.now) part.now) }
    ensures refusal { IfErr result (RefusedBy (check_call (lent_by signature.entry ws.old) register.now day term.now)) }
{
    let typed = judge(signature, register, day, term, ws)?;
    Ok(&mut ws[..typed.words])
}
