//! What is answered before a spool is opened and behind that, and what entries keep over steps.

ghost use Rattle.mta_store_run.specs.Kept.{OpeningAnswersTheSame, SnapshotsAnswerTheSame, StepsKeepEntries};

/// An entry keeps its number and its text when a spool is made shorter, so each question is answered as by the spool
/// before it was opened; and it keeps both over each later step.
pub fn entries_stay()
    ensures snapshots { SnapshotsAnswerTheSame }
    ensures opening { OpeningAnswersTheSame }
    ensures steps { StepsKeepEntries }
{}
