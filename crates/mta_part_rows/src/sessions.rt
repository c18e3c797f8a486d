//! Sessions stepped by hand. Each row is something that a session is told, in the order of the rows, as words with a
//! space between two, and is printed again with what the session wants done for it. The worked cases stand each under
//! its title.

mod answers;
mod asks;
mod held;
mod made;
mod row;
mod stepped;
mod units;
pub mod walk;
mod wants;

use crate::sessions::walk::Walk;
use anyhow::Result;

/// Prints a row with what is wanted for it. None asks something that it has an answer to.
pub fn try_row(rt: &impl Print, walk: &mut Walk, row: &str) -> Result<bool> {
    let said = walk.take(row)?;
    println!(rt; "{row}{said}")?;
    Ok(false)
}
