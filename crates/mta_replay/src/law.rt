//! What is possible before tables are recorded, as the contract of a function that does nothing.

ghost use Rattle.mta_replay.specs.Laws.{TablesComeFirst};

/// Where no tables are recorded only a Tables, a Format and a Snapshot are possible. So no rules are needed for another
/// step there.
pub fn tables_come_first()
    ensures { TablesComeFirst }
{}
