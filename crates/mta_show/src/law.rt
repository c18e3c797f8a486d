//! What compaction leaves of what is printed.

ghost use Rattle.mta_show.specs.Compacted.{MailboxesPrintTheSame, QueuesPrintTheSame};

/// The queue and each mailbox print the same of a state and of the one that its snapshot has, though spent messages
/// have lost their contents.
pub fn snapshots_print_the_same()
    ensures queue { QueuesPrintTheSame }
    ensures mailboxes { MailboxesPrintTheSame }
{}
