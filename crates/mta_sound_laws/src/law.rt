//! The laws, as the contract of a function that does nothing.

ghost use Rattle.mta_sound_laws.specs.Laws.{HistoriesAreSound, RecordedStepsStaySound, SnapshotsFit, StepsMakeWritten};

/// Each APDU that a possible step makes is one that is read again, where the step has a record. So the step keeps
/// soundness, and the state after a history is sound.
pub fn recorded_steps_stay_sound()
    ensures made { StepsMakeWritten }
    ensures steps { RecordedStepsStaySound }
    ensures histories { HistoriesAreSound }
{}

/// The snapshot of the state after a history of records is a record itself, where its body has fewer than 2^32 octets:
/// each of its fields is in its range.
pub fn snapshots_fit()
    ensures fits { SnapshotsFit }
{}
