//! Laws of the grammar and of the hops, each the contract of a function that does nothing.

ghost use Rattle.std.specs.Prelude.{◌≡◌, ◌↔◌, ◌++◌, ◌∷◌, ◌+◌, ◌≤◌, List, ℕ, Ok};
ghost use Rattle.std.specs.Prelude.{All, length};
ghost use Rattle.mta_names.specs.declared.attributes.Attributes.{Attributes};
ghost use Rattle.mta_tables.specs.declared.fault.LineKind.{LineKind};
ghost use Rattle.mta_tables.specs.declared.hop.Hop.{Hop};
ghost use Rattle.mta_tables.specs.Grammar.{Row, IsRow, text_of, said_by, IsOneLine, CanStand, IsWrong};
ghost use Rattle.mta_tables.specs.Grammar.{IsTablesText, IsFirstBadLine};
ghost use Rattle.mta_tables.specs.Hops.{best_hop};
ghost use Rattle.mta_tables.specs.Laws.{IsBestHop};
ghost use Rattle.mta_tables.specs.Reading.{bad};
ghost use Rattle.mta_tables.specs.Tables.{TablesValue, tables_of};
ghost use Rattle.mta_tables.specs.Whole.{AreTables};

/// Those tables are read that the text has.
pub fn tables_of_a_text_are_read()
    ensures { (text : List ℕ) (t : TablesValue)
        → (tables_of text ≡ Ok t) ↔ IsTablesText text t }
{}

/// That line is refused which is the first bad one, for what is wrong with it.
pub fn first_bad_line_is_refused()
    ensures { (text : List ℕ) (number : ℕ) (kind : LineKind)
        → (tables_of text ≡ bad number kind) ↔ IsFirstBadLine text number kind }
{}

/// No text of tables goes on with a wrong line behind lines that can stand in one text.
pub fn no_text_goes_on_with_a_wrong_line()
    ensures { (before : List Row) (line more : List ℕ) (kind : LineKind) (t : TablesValue)
        → All IsRow before → CanStand (said_by before) → IsOneLine line → IsWrong (said_by before) line kind
        → IsTablesText (text_of before ++ (line ++ 10 ∷ more)) t → ⊥ }
{}

/// Some text of tables goes on behind lines that can stand in one text, where 22 octets more still fit.
pub fn a_text_goes_on_behind_lines_that_can_stand()
    ensures { (before : List Row) → All IsRow before → CanStand (said_by before)
        → length (text_of before) + 22 ≤ 1048576
        → (rest : List ℕ) × ((t : TablesValue) × IsTablesText (text_of before ++ rest) t) }
{}

/// Tables that are read are whole: in their limits, no two mailboxes or lists of one name, no two equal patterns, and
/// the peers of routes are there.
pub fn tables_of_a_text_are_whole()
    ensures { (text : List ℕ) (t : TablesValue) → tables_of text ≡ Ok t → AreTables t }
{}

/// A name has one best hop in whole tables: the mailbox whose name is the same, else the list whose name is the same,
/// else where the route goes that matches and than which no route that matches has more parts, else nowhere.
pub fn the_best_hop_is_one()
    ensures found { (t : TablesValue) (n : Attributes) → IsBestHop t n (best_hop t n) }
    ensures one { (t : TablesValue) (n : Attributes) (hop : Hop) → AreTables t → IsBestHop t n hop
        → hop ≡ best_hop t n }
{}
