//! Laws of a session: its calls are events of the two ends, its ends have causes, what it puts may be written; and what
//! is answered, looked for and got before what.
#![tactic(auto)]

mod laws;
mod order_laws;

pub use laws::{
    ends_have_causes, events_lead_on, sessions_receive_by_the_rules, sessions_send_by_the_rules,
    units_put_may_be_written,
};
pub use order_laws::{
    actions_are_awaited, lanes_have_occasion, looks_come_first, nothing_is_owed, sessions_end_so,
    units_are_answered,
};
