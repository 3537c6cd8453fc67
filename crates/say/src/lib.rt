// Say: the statement of a principal, added unless it is held.
#![tactic(auto)]

ghost use Rattle.std.specs.Prelude.{◌≡◌, List};
ghost use Rattle.logic.specs.Result.{ok};
ghost use Rattle.logic.specs.Term.{Term};
ghost use Rattle.words.specs.Place.{Is};
ghost use Rattle.register.specs.Records.{Content, register_content};
ghost use Rattle.register.specs.Calls.{Lent, view, outline_of, stated_own, say_call};
ghost use Rattle.records.specs.Entries.{stated};
ghost use Rattle.shared_tests.specs.Shared.{lent_by};
ghost use Rattle.say.specs.Said.{said_answer, SaysAs, Enterable};

use logic::limit::MOST_CONSTANTS;
use logic::refusal::{Reason, Refusal};
use records::entry::Statement;
use records::format::{DESK, Kind, STATEMENT_WORDS};
use rules::constants::Constants;
use search::statement::stands;
use search::view::view_of;
use shared_tests::signed::Signature;
use shared_tests::{good_statement, in_time, prepare};
use signs::first_miss;
use sought::When;
use typing::check::check_statement;
use write_records::{add_statement, set_latest};

// What a say that is not refused did: it added a record, or the statement was held.
#[derive(Clone, Copy, Debug, PartialEq, Eq)]
pub enum Said {
    Added,
    Held,
}

// Tests 14 and 16, and whether the statement is held, of a proposition that passed the others.
fn addable(register: &[u32], day: u32, statement: Statement) -> Result<Said, Refusal>
    requires { Enterable register.now statement.words.now }
    ensures { (l : Lent) → (Σ : List Term) → (c : Content) → (q : Term) → register_content register.now ≡ ok c
        → Is statement.entry.words.now q
        → said_answer result ≡ stated_own day (stated statement.entry) q (view l (outline_of register.now) c Σ) }
{
    let view = view_of(register);
    first_miss(view.source, statement.words, When::On(day))?;
    if stands(view.source, statement) {
        return Ok(Said::Held);
    }
    if view.size - view.used < statement.words.len() + STATEMENT_WORDS {
        return Err(Reason::RegisterFull.at(0));
    }
    Ok(Said::Added)
}

// All tests of a say.
fn sayable(
    signature: Signature,
    register: &[u32],
    day: u32,
    statement: Statement,
    ws: &mut [u32],
) -> Result<Said, Refusal>
    ensures { said_answer result ≡ say_call (lent_by signature.entry ws.old) register.now day (stated statement.entry) }
{
    let mut table = [0u32; MOST_CONSTANTS];
    let count = prepare(signature, register, &mut table, ws)?;
    if !good_statement(statement.principal, statement.first, statement.last) {
        return Err(Reason::BadNumber.at(0));
    }
    if !in_time(register, day) {
        return Err(Reason::DayBeforeLatest.at(0));
    }
    if statement.principal == DESK {
        return Err(Reason::DeskSays.at(0));
    }
    let constants = Constants {
        sig: signature.list,
        table: &table[..count],
    };
    check_statement(constants, statement.words, ws)?;
    addable(register, day, statement)
}

// A say that succeeds adds its statement unless it is held, and sets the latest day either way. Nothing is written
// before the last test has passed.
pub fn say(
    signature: Signature,
    register: &mut [u32],
    day: u32,
    statement: Statement,
    ws: &mut [u32],
) -> Result<Said, Refusal>
    ensures { SaysAs (lent_by signature.entry ws.old) register.old day (stated statement.entry) register.new result }
{
    let said = sayable(signature, register, day, statement, ws)?;
    match said {
        Said::Added => add_statement(register, day, Kind::Say, statement),
        Said::Held => set_latest(register, day),
    }
    Ok(said)
}
