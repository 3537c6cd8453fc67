// The writing step of an extract: each home of a list with its survey code.
#![tactic(auto)]

ghost use Rattle.std.specs.Prelude.{true, ◌≡◌, length};
ghost use Rattle.logic.specs.Answer.{answer};
ghost use Rattle.words.specs.Place.{written_at};
ghost use Rattle.homes.specs.Homes.{rising, rows, formed, joined, write_call, Wrote};

use logic::refusal::{Reason, Refusal};

pub const MOST_HOMES: usize = 1024;

pub const MOST_ROWS: usize = 4096;

// What stands for the code of a home without a survey.
const NO_SURVEY: u32 = 4294967295;

// Whether the homes rise strictly.
fn homes_rise(homes: &[u32]) -> bool
    ensures { result ≡ rising 0 homes.now }
{
    homes.is_sorted_by(|home, next| home < next)
}

// Whether these are rows whose homes rise strictly, each with a code.
fn rows_rise(surveys: &[u32]) -> bool
    ensures { result ≡ rows 0 surveys.now }
{
    let (rows, rest) = surveys.as_chunks::<2>();
    if !rest.is_empty() {
        return false;
    }
    rows.is_sorted_by(|row, next| row[0] < next[0]) && rows.iter().all(|row| row[1] != NO_SURVEY)
}

// The form of a list, a table and an output of so many words.
pub fn well_formed(homes: &[u32], surveys: &[u32], room: usize) -> bool
    ensures { result ≡ formed homes.now surveys.now room }
{
    if MOST_HOMES < homes.len() || 2 * MOST_ROWS < surveys.len() || room < 2 * homes.len() {
        return false;
    }
    homes_rise(homes) && rows_rise(surveys)
}

// Writes each home with its code, in one pass over list and table: a turn passes over a row or writes a home.
pub fn join(homes: &[u32], surveys: &[u32], out: &mut [u32])
    requires { formed homes.now surveys.now (length out.old) ≡ true }
    ensures { out.new ≡ written_at out.old 0 (joined homes.now surveys.now) }
{
    let mut left = surveys;
    let mut k = 0;
    while let Some(&home) = homes.get(k) {
        let code = match left {
            [row, _, rest @ ..] if *row < home => {
                left = rest;
                continue;
            }
            [row, code, ..] if *row == home => *code,
            _ => NO_SURVEY,
        };
        out[2 * k] = home;
        out[2 * k + 1] = code;
        k += 1;
    }
}

// The writing step: nothing is written where the form is broken.
pub fn write(homes: &[u32], surveys: &[u32], out: &mut [u32]) -> Result<(), Refusal>
    ensures { Wrote (write_call homes.now surveys.now (length out.old)) out.old out.new result }
{
    if !well_formed(homes, surveys, out.len()) {
        return Err(Reason::OutOfForm.at(0));
    }
    join(homes, surveys, out);
    Ok(())
}
