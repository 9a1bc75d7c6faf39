//! Rows of tests: `STEPS => OUTCOME`, and whether each row says what comes out. Calls of scripts as text.
#![tactic(auto)]

pub mod calls;
pub mod scripts;

use std::alloc::{AllocError, Global};

/// What the steps of rows are made on, one row after another.
pub trait Subject {
    /// Makes the steps of a row, and appends what comes out behind a space each. None ends a row that can't be made. A blank row
    /// between cases has no steps, and nothing comes out.
    fn put(&mut self, alloc: Global, steps: &str, text: &mut String) -> Option<()>;
}

/// The word `right`, or the rows that say something else than what comes out, with what comes out in its place. Nothing where
/// there is no memory.
pub fn show<S: Subject>(alloc: Global, subject: &mut S, rows: &str) -> String {
    match shown(alloc, subject, rows) {
        Ok(text) => text,
        Err(AllocError) => String::new(alloc),
    }
}

fn shown<S: Subject>(alloc: Global, subject: &mut S, rows: &str) -> Result<String, AllocError> {
    let mut wrong = wrong_rows(alloc, subject, rows)?;
    if wrong.is_empty() {
        wrong.push_str("right")?;
    }
    Ok(wrong)
}

/// The rows that say something else than what comes out, with what comes out in its place.
pub fn wrong_rows<S: Subject>(
    alloc: Global,
    subject: &mut S,
    rows: &str,
) -> Result<String, AllocError> {
    let mut wrong = String::new(alloc);
    for row in rows.lines() {
        let right = right_row(alloc, subject, steps_in(row))?;
        put_if_wrong(&mut wrong, row, right)?;
    }
    Ok(wrong)
}

/// Appends the right row, if the row is another one.
fn put_if_wrong(wrong: &mut String, row: &str, right: String) -> Result<(), AllocError> {
    if row == right.as_str() {
        Ok(())
    } else {
        writeln!(wrong, "{right}")
    }
}

fn right_row<S: Subject>(
    alloc: Global,
    subject: &mut S,
    steps: &str,
) -> Result<String, AllocError> {
    let mut text = String::from_str(alloc, steps)?;
    if !steps.is_empty() {
        text.push_str(" =>")?;
    }
    let _ = subject.put(alloc, steps, &mut text);
    Ok(text)
}

/// The steps of a row, or all of it where it says nothing more.
pub fn steps_in(row: &str) -> &str {
    match row.split_once(" =>") {
        Some((steps, _)) => steps,
        None => row,
    }
}

/// The word in front, and what stands behind it.
pub fn split_word(text: &str) -> (&str, &str) {
    match text.split_once(' ') {
        Some(parts) => parts,
        None => (text, ""),
    }
}
