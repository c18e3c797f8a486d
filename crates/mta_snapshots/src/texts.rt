//! Texts of tables that were recorded.

ghost use Rattle.std.specs.Prelude.{◌≡◌, ◌↔◌, true, IfOk, IsTrue};
ghost use Rattle.std.specs.List.{AllByRecursion};
ghost use Rattle.mta_machine.specs.Rules.{is_tables_text};

use mta_ber::{Memory, Octets};
use mta_state::Rules;
use std::alloc::Global;

// Whether the grammar of tables reads the text.
fn is_text<R: Rules + Drop>(alloc: Global, format: u32, text: &[u8]) -> Result<bool, Memory>
    ensures { IfOk result (λ b. IsTrue b ↔ (is_tables_text text.now ≡ true)) }
{
    match R::under(alloc, format, text)? {
        Some(_) => Ok(true),
        None => Ok(false),
    }
}

/// Whether the grammar of tables reads each of the texts.
pub(crate) fn are_texts<R: Rules + Drop>(
    alloc: Global,
    format: u32,
    texts: &[Octets],
) -> Result<bool, Memory>
    ensures { IfOk result (λ b. IsTrue b ↔ AllByRecursion (λ text. is_tables_text text ≡ true) texts.now) }
{
    for text in texts {
        if !is_text::<R>(alloc, format, text.as_slice())? {
            return Ok(false);
        }
    }
    Ok(true)
}
