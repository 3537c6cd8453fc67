// A rule of a rule list.
ghost use Rattle.std.specs.Prelude.{◌≡◌, ◌≤◌, length};
ghost use Rattle.records.specs.Entries.{stated};
ghost use Rattle.rule_list.specs.Rules.{rule_end, rule_there};

use records::entry::Statement;
use records::format::{FIRST, LAST, PRINCIPAL, RULE_HEAD, RULE_LENGTH};

// The rule that stands whole at a place.
pub fn rule_at(rules: &[u32], at: usize) -> Statement<'_>
    requires { rule_end rules.now at ≤ length rules.now }
    ensures { stated result ≡ rule_there rules.now at }
{
    let start = at + RULE_HEAD;
    let end = start + rules[at + RULE_LENGTH] as usize;
    Statement {
        principal: rules[at + PRINCIPAL],
        first: rules[at + FIRST],
        last: rules[at + LAST],
        words: &rules[start..end],
    }
}
