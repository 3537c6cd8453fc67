// What the rules of a rule list take, before anything is written.
ghost use Rattle.std.specs.Prelude.{◌≡◌};
ghost use Rattle.register.specs.Records.{used_by};
ghost use Rattle.register.specs.History.{rules_of};
ghost use Rattle.rule_list.specs.Rules.{WholeRules};

use crate::rule::rule_at;
use records::format::{HEADER, RULE_HEAD, STATEMENT_WORDS};
use search::statement::{rules_before, stands};

// The words that the opened register uses: the header, and a record for each rule that is not repeated.
pub fn opening_words(rules: &[u32]) -> usize
    requires { WholeRules rules.now }
    ensures { result ≡ used_by (rules_of rules.now) }
{
    let mut total = HEADER;
    let mut at = 0;
    // no plainer: the length word of a rule says where the next one stands
    while at < rules.len() {
        let rule = rule_at(rules, at);
        let n = rule.words.len();
        if !stands(rules_before(rules, at), rule) {
            total += STATEMENT_WORDS + n;
        }
        at += RULE_HEAD + n;
    }
    total
}
