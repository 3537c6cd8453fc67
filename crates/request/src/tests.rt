// A request's own tests, behind those that calls share: on a register, and behind requests of the same day that are to
// be granted before it. A batch makes them for each of its items; a request alone has none before it.
ghost use Rattle.std.specs.Prelude.{◌≡◌, List, ℕ, ◌<◌, ◌≤◌, length};
ghost use Rattle.logic.specs.Limits.{payloads, most_operations};
ghost use Rattle.logic.specs.Term.{Term, size};
ghost use Rattle.logic.specs.Infer.{same as same_term};
ghost use Rattle.words.specs.Place.{Is};
ghost use Rattle.words.specs.Typed.{TypeAt};
ghost use Rattle.logic.specs.Answer.{answer};
ghost use Rattle.typing.specs.Check.{ConstantsOf};
ghost use Rattle.register.specs.Records.{Content, Ask as Asked};
ghost use Rattle.records.specs.Entries.{asked as asked-by};
ghost use Rattle.register.specs.Calls.{Lent, view as view_of, outline_of, ask_test, permission, proved_own, request_own};
ghost use Rattle.register.specs.BatchTests.{view_behind};
ghost use Rattle.request.specs.Requested.{Seen, Provable, Askable};

use logic::limit::{MOST_NESTING, MOST_WORDS};
use logic::refusal::{Reason, Refusal};
use logic::word::{APP, CONSTANT_0, NAME_0, PAYLOADS, SAYS, TEXT_0};
use parts::same;
use records::entry::Ask;
use records::format::{DESK, GRANT_WORDS};
use rules::constants::Constants;
use search::view::View;
use shared_tests::signed::Signature;
use signs::first_miss_behind;
use sought::When;
use typing::check::check_term;

// Test 5 of the call's own numbers.
fn numbers(n: u32, ask: Ask) -> bool
    ensures { result ≡ ask_test n (asked-by ask.entry) }
{
    ask.operation < n && ask.extract < PAYLOADS && ask.delivery < PAYLOADS
}

// Test 13: whether the type of n words at the front of the workspace is Says a0 App C2i sv.
fn permits(ws: &[u32], n: usize, ask: Ask) -> bool
    requires { (n ≤ length ws.now) × (ask.operation < most_operations) × (ask.extract < payloads) }
    ensures { (A : Term) → TypeAt ws.now 0 A → n ≡ size A → result ≡ same_term A (permission (asked-by ask.entry)) }
{
    let wanted = [
        SAYS,
        NAME_0 + DESK,
        APP,
        CONSTANT_0 + 2 * ask.operation,
        TEXT_0 + ask.extract,
    ];
    same(&ws[..n], &wanted)
}

// Tests 13, 14 and 16 of a proof whose type is the first n words of the workspace. The buckets are the register's.
// `before` are the requests before it, as items of a list, and the view has the words used and the latest day behind
// them.
fn proves(
    view: View,
    buckets: &[usize],
    before: &[u32],
    ask: Ask,
    ws: &[u32],
    n: usize,
) -> Result<(), Refusal>
    requires { Provable view buckets.now before.now (asked-by ask) ws.now n }
    ensures { (l : Lent) → (Σ : List Term) → (c : Content) → (ks : List Asked) → (t A : Term)
        → Seen view.entry before.now ask.entry.day c ks → Is ask.entry.proof.now t → TypeAt ws.now 0 A → n ≡ size A
        → answer result ≡ proved_own (asked-by ask.entry) (record { term = t; type = A })
        (view_behind ks ask.entry.day (view_of l (outline_of view.entry.source.list.now) c Σ)) }
{
    if !permits(ws, n, ask) {
        return Err(Reason::AnotherProposition.at(0));
    }
    first_miss_behind(view.source, buckets, before, ask.proof, When::On(ask.day))?;
    if view.size - view.used < ask.proof.len() + GRANT_WORDS {
        return Err(Reason::RegisterFull.at(0));
    }
    Ok(())
}

// All of them.
pub fn request_tests(
    signature: Signature,
    table: &[u32],
    view: View,
    buckets: &[usize],
    before: &[u32],
    ask: Ask,
    ws: &mut [u32],
) -> Result<(), Refusal>
    requires { Askable signature.list.now signature.operations table.now view buckets.now before.now ask.day ws.old }
    ensures { (l : Lent) → (Σ : List Term) → (c : Content) → (ks : List Asked) → l.n ≡ signature.entry.operations
        → ConstantsOf signature.entry.list.now table.now Σ → Seen view.entry before.now ask.entry.day c ks
        → answer result ≡ request_own (asked-by ask.entry) (view_behind ks ask.entry.day (view_of l (outline_of view.entry.source.list.now) c Σ)) }
{
    if !numbers(signature.operations, ask) {
        return Err(Reason::BadNumber.at(0));
    }
    if ask.day < view.latest {
        return Err(Reason::DayBeforeLatest.at(0));
    }
    let constants = Constants {
        sig: signature.list,
        table,
    };
    let typed = check_term(constants, ask.proof, MOST_WORDS, MOST_NESTING, ws)?;
    proves(view, buckets, before, ask, ws, typed.words)
}
