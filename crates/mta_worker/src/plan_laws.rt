//! Laws, each the contract of a function that does nothing.

ghost use Rattle.std.specs.Prelude.{◌≡◌, List, ℕ, Ok};
ghost use Rattle.mta_tables.specs.Tables.{TablesValue, tables_of};
ghost use Rattle.mta_worker.specs.PeerLines.{HaveLines};
ghost use Rattle.mta_worker.specs.Told.{LinesMayBeAccepted, LinesMayBeTold};

use mta_tables::tables_of_a_text_are_read;

/// What the lines of tables say of names, passwords and values is in its ranges, where the tables are those of a text.
pub fn tables_of_a_text_have_lines()
    ensures { (text : List ℕ) (t : TablesValue) → tables_of text ≡ Ok t → HaveLines t }
{
    tables_of_a_text_are_read();
}

/// A responder that is told of a line may write its Accept, whatever Open it got.
pub fn lines_may_be_told()
    ensures accepted { LinesMayBeAccepted }
    ensures told { LinesMayBeTold }
{}
