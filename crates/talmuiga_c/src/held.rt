//! What lies in room that C gave.

use crate::kept::Kept;
use kept_messages::{Arguments, LocaleMessage};

/// What lies in room that C gave.
#[derive(Drop)]
pub enum Held {
    /// What a formatter holds.
    Formatter(Kept),
    /// A message with its rules.
    Message(LocaleMessage),
    /// Arguments of messages.
    Arguments(Arguments),
}
