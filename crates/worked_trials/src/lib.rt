// For `worked`: marks in a trial register, and where there are none, a line for each.
#![tactic(auto)]

use mark_list::{MARK_LIST, MOST_MARKS};
use records::format::{Mode, STANDING};
use sample::{TODAY, proof, rules, statement};
use std::fmt;
use worked_lines::{
    counts_line, heading, mark_line, marks_line, open_line_as, request_line, return_line,
    sample_ask, say_line,
};

// Document 02, slip 10: a mark behind the say, a grant that fills the register, and a mark behind that.
fn set_marks(
    out: &mut impl fmt::Write,
    register: &mut [u32; 71],
    marks: &mut [u32; MARK_LIST],
) -> fmt::Result {
    mark_line(out, "mark 5", register, marks, 5)?;
    let p = proof();
    request_line(out, "p on day 18", register, sample_ask(18, &p))?;
    mark_line(out, "mark 6", register, marks, 6)?;
    marks_line(out, marks)
}

// "Returning restores these three, makes later records unread, and removes marks set after it."
fn come_back(
    out: &mut impl fmt::Write,
    register: &mut [u32; 71],
    marks: &mut [u32; MARK_LIST],
) -> fmt::Result {
    return_line(out, "return to 5", register, marks, 5)?;
    counts_line(out, register)?;
    marks_line(out, marks)?;
    return_line(out, "27, return to 6", register, marks, 6)?;
    let p = proof();
    request_line(out, "p on day 15", register, sample_ask(TODAY, &p))?;
    counts_line(out, register)
}

// "Desk staff try rules in a trial register and want to come back."
pub fn trials(out: &mut impl fmt::Write, register: &mut [u32; 71]) -> fmt::Result {
    heading(out, "A trial register of 71 words")?;
    let list = rules();
    let mut marks = [0u32; MARK_LIST];
    open_line_as(
        out,
        "rule r",
        register,
        Mode::Trial as u32,
        &mut marks,
        &list,
    )?;
    let said = statement();
    say_line(out, "a3 says App C2 s7", register, 3, &said)?;
    set_marks(out, register, &mut marks)?;
    come_back(out, register, &mut marks)?;
    let mut eight = [0u32; MARK_LIST];
    eight[STANDING] = MOST_MARKS as u32;
    mark_line(out, "28, a ninth mark", register, &mut eight, 9)
}

// "any mark call on a release register" is 27; a register of no mode is not opened.
pub fn released(out: &mut impl fmt::Write, register: &mut [u32; 71]) -> fmt::Result {
    let mut marks = [0u32; MARK_LIST];
    mark_line(
        out,
        "27, a mark in a release register",
        register,
        &mut marks,
        5,
    )?;
    let list = rules();
    open_line_as(out, "5, open with mode 2", register, 2, &mut marks, &list)
}
