//! The protocol data units of Reliable Transfer (X.228), with the bind of message transfer agents: what their elements
//! spell, and the octets that are written of them.
#![tactic(auto)]

mod answer;
mod bind;
mod connection;
mod identifier;
mod reason;
mod request;
mod types;
mod values;
mod writing;

pub use answer::read_answer;
pub use identifier::read_reference;
pub use reason::{read_abort, read_refusal};
pub use request::read_request;
pub use types::{Answer, OpenAnswer, OpenRequest, Request};
pub use values::{read_number, read_word};
pub use writing::{put_abort, put_answer, put_reference, put_refusal, put_request};
