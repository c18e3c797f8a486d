//! What a session that is run comes to.

use mta_session::{Ask, SessionEnd};

/// It asks the spool something, or it is over.
#[derive(Drop)]
pub enum Came {
    Asks(Ask),
    Ends(SessionEnd),
}
