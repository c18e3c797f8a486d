//! Laws over the SETs of Reliable Transfer (X.228), each a clause of a function that does nothing.

ghost use Rattle.mta_set_laws.specs.UnitLaws.{BindsInAnyOrder, RequestsInAnyOrder, AnswersInAnyOrder};
ghost use Rattle.mta_set_laws.specs.UnitLaws.{ReasonsInAnyOrder};

/// Where octets spell a protocol data unit or a bind, the octets of its components in every other order spell it too.
pub fn components_of_units_stand_in_any_order()
    ensures binds { BindsInAnyOrder }
    ensures requests { RequestsInAnyOrder }
    ensures answers { AnswersInAnyOrder }
    ensures reasons { ReasonsInAnyOrder }
{}
