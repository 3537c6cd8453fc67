// The rule list of an opening: its rules one by one, counted, and written as records.
#![tactic(auto)]

pub mod opening;
pub mod rule;
pub mod rule_records;
