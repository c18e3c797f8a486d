//! Laws of histories, each the contract of a function that does nothing.

ghost use Rattle.mta_histories.specs.Laws.{HistoriesAreRuns, EachRecipientOnce, StepsKeep, HistoriesKeep};
ghost use Rattle.mta_histories.specs.Laws.{NumbersNeverFall, LanesAskEnough, LastIsHighestStarted, DueStepsArePossible};
ghost use Rattle.mta_histories.specs.Laws.{SettlingStepsAreDue, BatchesMayStart, HistoriesGrow};
ghost use Rattle.mta_histories.specs.Numbers.{NumbersSuffice};
ghost use Rattle.mta_histories.specs.Seen.{LanesSeeHistories};
ghost use Rattle.mta_histories.specs.Compact.{NamedItemsKeepTheirOctets, SnapshotsShowTheSame};
ghost use Rattle.mta_histories.specs.Items.{ItemsStaySound, SoundStays};
ghost use Rattle.mta_histories.specs.Compaction.{CompactionKeeps, CompactionIsSound, CompactionIsPossible};

/// What the steps of a history are for the machine of recipients is a run of it.
pub fn histories_are_runs()
    ensures { HistoriesAreRuns }
{}

/// In each history a recipient for whom this agent is responsible is pending with no discharge, or discharged once.
pub fn each_recipient_once()
    ensures { EachRecipientOnce }
{}

/// A possible step keeps what is kept: a recipient is in at most one activity in Sending or Ending and pending while it
/// is in one; those of an activity that is dropped were reported; what is confirmed is below the number of pieces; what
/// stands is of the highest activity.
pub fn steps_keep()
    ensures { StepsKeep }
{}

/// The state after a history has all this.
pub fn histories_keep()
    ensures { HistoriesKeep }
{}

/// No possible step lets the last moment, the number of lanes or of items, a lane's generation or its highest
/// activities fall.
pub fn numbers_never_fall()
    ensures { NumbersNeverFall }
{}

/// Of a step on a lane the machine asks no more than the lane does.
pub fn lanes_ask_enough()
    ensures { LanesAskEnough }
{}

/// The activity of a sending half that is not Idle is the highest that was started on its lane.
pub fn last_is_highest_started()
    ensures { LastIsHighestStarted }
{}

/// A due step is possible.
pub fn due_steps_are_possible()
    ensures { DueStepsArePossible }
{}

/// A step that settles one recipient is possible only where it is due.
pub fn settling_steps_are_due()
    ensures { SettlingStepsAreDue }
{}

/// A batch may be started on an agreed lane to its peer whose sending half is Idle.
pub fn batches_may_start()
    ensures { BatchesMayStart }
{}

/// A history and a step that is possible behind it are a history.
pub fn histories_grow()
    ensures { HistoriesGrow }
{}

/// What the lanes see of a history, one step for each step of it, leads to the lanes that are open after it.
pub fn lanes_see_histories()
    ensures { LanesSeeHistories }
{}

/// No step makes more items than it needs numbers.
pub fn numbers_suffice()
    ensures { NumbersSuffice }
{}

/// In the snapshot of a state an item is the same but for the content of a message, and one that a delivery names keeps
/// its octets.
pub fn snapshots_show_the_same()
    ensures shown { SnapshotsShowTheSame }
    ensures named { NamedItemsKeepTheirOctets }
{}

/// Items that may be recorded in a snapshot stay so, and so does the state, where what is made is written so that it is
/// read again.
pub fn sound_stays()
    ensures items { ItemsStaySound }
    ensures states { SoundStays }
{}

/// What every step keeps holds of the state that the snapshot of a state is, and that one is sound.
pub fn compaction_keeps()
    ensures kept { CompactionKeeps }
    ensures sound { CompactionIsSound }
{}

/// A history may begin with the snapshot of a state that is kept and sound.
pub fn compaction_is_possible()
    ensures { CompactionIsPossible }
{}
