//! Numbers of messages, as forms show them: money, percents, units and compact numbers, with the
//! plural operands of what is shown.
#![tactic(auto)]

mod operands;
mod showing;

pub use showing::shown_by;
