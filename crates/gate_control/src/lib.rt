//! The connections of a control listener: each brings one request, which a [`Control`] answers unless it comes from
//! elsewhere or lacks the token that is wanted, and is closed.
#![tactic(auto)]

/// What answers, and the connections.
mod control;

pub use control::{Answer, Control, ControlTable, NoControl, text_reply};
