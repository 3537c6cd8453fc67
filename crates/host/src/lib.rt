// "A host program in C calls check and request": extern "C" entry points on numbers and lent slices, thin over the
// proved check and request, and over open, say, batch, read, extract, mark and return alike. include/aura0.h declares
// them. An answer is the refusal's number times 4294967296 plus the place, 0 for success.
#![tactic(auto)]

ghost use Rattle.std.specs.Prelude.{◌≡◌, ◌+◌, ◌*◌, length};
ghost use Rattle.register.specs.Records.{statement_of, ask_of};
ghost use Rattle.register.specs.Calls.{check_call};
ghost use Rattle.shared_tests.specs.Shared.{lent_of};
ghost use Rattle.editions.specs.Convert.{from_named, to_named};
ghost use Rattle.uses.specs.Uses.{uses_call};
ghost use Rattle.reduction.specs.Call.{simplify_call};
ghost use Rattle.logic.specs.Answer.{reason_number, answer as told};
ghost use Rattle.host.specs.Answers.{number_unit, code_of, count_of, Fits, Tellable};
ghost use Rattle.host.specs.Answers.{OpenedTo, MarkedTo, ReturnedTo, SaidTo, RequestedTo, BatchedTo, ExtractedTo, ConvertedTo, CountedTo};
ghost use Rattle.host.specs.Answers.{SimplifiedTo, TypedTo, ReadTo};

use batch::batch;
use check_call::{check, judge};
use logic::refusal::Refusal;
use marks::{mark, return_to};
use named::convert::{from_named, to_named};
use open::open;
use read_call::{place, read};
use records::entry::{Ask, Statement};
use records::format::HEAD;
use request::request;
use say::{Said, say};
use shared_tests::signed::Signature;
use simplify::reduce::Simplified;
use simplify::simplify;
use uses::uses;

// What a refusal's number is multiplied by.
const NUMBER_UNIT: u64 = 4294967296;

fn code(refusal: Refusal) -> u64
    requires { Fits (reason_number refusal.reason) refusal.place }
    ensures { result ≡ reason_number refusal.reason * number_unit + refusal.place }
{
    u64::from(u32::from(refusal.reason)) * NUMBER_UNIT + refusal.place as u64
}

// What a call answers that gives no value, as one number.
fn answer(done: Result<(), Refusal>) -> u64
    requires { Tellable (told done) }
    ensures { result ≡ code_of (told done) }
{
    match done {
        Ok(()) => 0,
        Err(refusal) => code(refusal),
    }
}

// What a call answers that gives a count: that is put into `count`, 0 where refused.
fn answer_count(counted: Result<usize, Refusal>, count: &mut usize) -> u64
    requires { Tellable (told counted) }
    ensures answer { result ≡ code_of (told counted) }
    ensures count { count.new ≡ count_of (told counted) }
{
    match counted {
        Ok(n) => {
            *count = n;
            0
        }
        Err(refusal) => {
            *count = 0;
            code(refusal)
        }
    }
}

// Open: the register written anew with the rules, and no mark left standing.
#[unsafe(no_mangle)]
pub extern "C" fn aura0_open(
    signature: &[u32],
    n: u32,
    mode: u32,
    register: &mut [u32],
    marks: &mut [u32],
    rules: &[u32],
    workspace: &mut [u32],
) -> u64
    ensures { OpenedTo (lent_of signature.now n workspace.old) register.old marks.old mode
        rules.now register.new marks.new result }
{
    let signature = Signature {
        list: signature,
        operations: n,
    };
    answer(open(signature, mode, register, marks, rules, workspace))
}

// Mark: a mark set at the end of a trial register's records.
#[unsafe(no_mangle)]
pub extern "C" fn aura0_mark(register: &[u32], marks: &mut [u32], number: u32) -> u64
    ensures { MarkedTo register.now marks.old number marks.new result }
{
    answer(mark(register, marks, number))
}

// Return: a trial register brought back to a mark.
#[unsafe(no_mangle)]
pub extern "C" fn aura0_return(register: &mut [u32], marks: &mut [u32], number: u32) -> u64
    ensures { ReturnedTo register.old marks.old number register.new marks.new result }
{
    answer(return_to(register, marks, number))
}

// Say: `added` is 1 where a record was added, else 0.
#[unsafe(no_mangle)]
pub extern "C" fn aura0_say(
    signature: &[u32],
    n: u32,
    register: &mut [u32],
    day: u32,
    principal: u32,
    first: u32,
    last: u32,
    proposition: &[u32],
    workspace: &mut [u32],
    added: &mut u32,
) -> u64
    ensures { SaidTo (lent_of signature.now n workspace.old) register.old day
        (statement_of principal first last proposition.now) register.new added.new result }
{
    let signature = Signature {
        list: signature,
        operations: n,
    };
    let statement = Statement {
        principal,
        first,
        last,
        words: proposition,
    };
    match say(signature, register, day, statement, workspace) {
        Ok(Said::Added) => {
            *added = 1;
            0
        }
        Ok(Said::Held) => {
            *added = 0;
            0
        }
        Err(refusal) => {
            *added = 0;
            code(refusal)
        }
    }
}

// Request: a grant and its receipt added.
#[unsafe(no_mangle)]
pub extern "C" fn aura0_request(
    signature: &[u32],
    n: u32,
    register: &mut [u32],
    day: u32,
    operation: u32,
    extract: u32,
    delivery: u32,
    proof: &[u32],
    workspace: &mut [u32],
) -> u64
    ensures { RequestedTo (lent_of signature.now n workspace.old) register.old
        (ask_of operation extract delivery day proof.now) register.new result }
{
    let signature = Signature {
        list: signature,
        operations: n,
    };
    let ask = Ask {
        operation,
        extract,
        delivery,
        day,
        proof,
    };
    answer(request(signature, register, ask, workspace))
}

// Batch: `index` is that of the item refused, 0 where all are granted.
#[unsafe(no_mangle)]
pub extern "C" fn aura0_batch(
    signature: &[u32],
    n: u32,
    register: &mut [u32],
    day: u32,
    items: &[u32],
    workspace: &mut [u32],
    index: &mut u32,
) -> u64
    ensures { BatchedTo (lent_of signature.now n workspace.old) register.old day
        items.now register.new index.new result }
{
    let signature = Signature {
        list: signature,
        operations: n,
    };
    match batch(signature, register, day, items, workspace) {
        Ok(()) => {
            *index = 0;
            0
        }
        Err(item) => {
            *index = item.index as u32;
            code(item.refusal)
        }
    }
}

// Extract: the form of a list of homes, a table of surveys and an output; then the request; and behind its grant
// every home with its code.
#[unsafe(no_mangle)]
pub extern "C" fn aura0_extract(
    signature: &[u32],
    n: u32,
    register: &mut [u32],
    day: u32,
    operation: u32,
    extract: u32,
    delivery: u32,
    proof: &[u32],
    homes: &[u32],
    surveys: &[u32],
    output: &mut [u32],
    workspace: &mut [u32],
) -> u64
    ensures { ExtractedTo (lent_of signature.now n workspace.old) register.old
        (ask_of operation extract delivery day proof.now) homes.now surveys.now
        register.new output.old output.new result }
{
    let signature = Signature {
        list: signature,
        operations: n,
    };
    let ask = Ask {
        operation,
        extract,
        delivery,
        day,
        proof,
    };
    answer(extract::extract(signature, register, ask, workspace, homes, surveys, output))
}

// Check, without the type.
#[unsafe(no_mangle)]
pub extern "C" fn aura0_check(
    signature: &[u32],
    n: u32,
    register: &[u32],
    day: u32,
    term: &[u32],
    workspace: &mut [u32],
) -> u64
    ensures { result ≡ code_of (check_call (lent_of signature.now n workspace.old)
        register.now day term.now) }
{
    let signature = Signature {
        list: signature,
        operations: n,
    };
    match check(signature, register, day, term, workspace) {
        Ok(_) => 0,
        Err(refusal) => code(refusal),
    }
}

// Check: the type is the first `type_words` words of the workspace.
#[unsafe(no_mangle)]
pub extern "C" fn aura0_check_type(
    signature: &[u32],
    n: u32,
    register: &[u32],
    day: u32,
    term: &[u32],
    workspace: &mut [u32],
    type_words: &mut usize,
) -> u64
    ensures { TypedTo (check_call (lent_of signature.now n workspace.old)
        register.now day term.now) workspace.new type_words.new result }
{
    let signature = Signature {
        list: signature,
        operations: n,
    };
    match judge(signature, register, day, term, workspace) {
        Ok(typed) => {
            *type_words = typed.words;
            0
        }
        Err(refusal) => {
            *type_words = 0;
            code(refusal)
        }
    }
}

// Simplify: `steps` is how many steps were taken and `written` how many words, both 0 where refused.
#[unsafe(no_mangle)]
pub extern "C" fn aura0_simplify(
    signature: &[u32],
    n: u32,
    register: &[u32],
    day: u32,
    term: &[u32],
    budget: usize,
    output: &mut [u32],
    workspace: &mut [u32],
    steps: &mut usize,
    written: &mut usize,
) -> u64
    ensures { SimplifiedTo (simplify_call (lent_of signature.now n workspace.old) register.now day
        term.now budget (length output.old)) output.old output.new steps.new written.new result }
{
    let signature = Signature {
        list: signature,
        operations: n,
    };
    match simplify(signature, register, day, term, budget, output, workspace) {
        Ok(
            Simplified {
                steps: taken,
                words,
            },
        ) => {
            *steps = taken;
            *written = words;
            0
        }
        Err(refusal) => {
            *steps = 0;
            *written = 0;
            code(refusal)
        }
    }
}

// Conversion into names: `written` is how many words, 0 where refused.
#[unsafe(no_mangle)]
pub extern "C" fn aura0_to_named(term: &[u32], output: &mut [u32], written: &mut usize) -> u64
    ensures { ConvertedTo (to_named term.now (length output.old)) output.old output.new
        written.new result }
{
    answer_count(to_named(term, output), written)
}

// Conversion from names, alike.
#[unsafe(no_mangle)]
pub extern "C" fn aura0_from_named(term: &[u32], output: &mut [u32], written: &mut usize) -> u64
    ensures { ConvertedTo (from_named term.now (length output.old)) output.old output.new
        written.new result }
{
    answer_count(from_named(term, output), written)
}

// Uses: `count` is how many variables numbered `from` or more stand free, 0 where refused.
#[unsafe(no_mangle)]
pub extern "C" fn aura0_uses(term: &[u32], from: u32, count: &mut usize) -> u64
    ensures { CountedTo (uses_call from term.now) count.new result }
{
    answer_count(uses(term, from), count)
}

// Read: the body is `words` words of the register from `start` on; all three are 0 where refused.
#[unsafe(no_mangle)]
pub extern "C" fn aura0_read(
    register: &[u32],
    record: usize,
    kind: &mut u32,
    start: &mut usize,
    words: &mut usize,
) -> u64
    ensures { ReadTo register.now «record» kind.new start.new words.new result }
{
    match read(register, record) {
        Ok(found) => {
            *kind = u32::from(found.kind);
            *start = place(register, record) + HEAD;
            *words = found.body.len();
            0
        }
        Err(refusal) => {
            *kind = 0;
            *start = 0;
            *words = 0;
            code(refusal)
        }
    }
}
