//! Laws over the SETs of X.411, each the contract of a function that does nothing.

ghost use Rattle.mta_set_laws.specs.Laws.{PersonalNamesInAnyOrder, DeliveriesInAnyOrder, NonDeliveriesInAnyOrder};
ghost use Rattle.mta_set_laws.specs.Laws.{LastTracesInAnyOrder, ReportedRecipientsInAnyOrder};
ghost use Rattle.mta_set_laws.specs.Laws.{ReportEnvelopesInAnyOrder, ReportContentsInAnyOrder, RecipientsInAnyOrder};
ghost use Rattle.mta_set_laws.specs.Laws.{EnvelopesInAnyOrder, SuppliedInformationInAnyOrder};

/// Where octets spell a value whose type is a SET, the octets of its components in every other order spell it too.
pub fn components_stand_in_any_order()
    ensures personal_names { PersonalNamesInAnyOrder }
    ensures supplied_information { SuppliedInformationInAnyOrder }
    ensures deliveries { DeliveriesInAnyOrder }
    ensures non_deliveries { NonDeliveriesInAnyOrder }
    ensures last_traces { LastTracesInAnyOrder }
    ensures reported_recipients { ReportedRecipientsInAnyOrder }
    ensures report_envelopes { ReportEnvelopesInAnyOrder }
    ensures report_contents { ReportContentsInAnyOrder }
    ensures recipients { RecipientsInAnyOrder }
    ensures envelopes { EnvelopesInAnyOrder }
{}
