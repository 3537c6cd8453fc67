// Statements sought: in the records of a register, or in the rules of a rule list; and a register's view.
#![tactic(auto)]

pub mod statement;
pub mod view;
