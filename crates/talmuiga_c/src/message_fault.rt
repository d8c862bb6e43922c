//! What is wrong with the text of a message, in numbers.

ghost use Rattle.std.specs.Prelude.{◌≡◌};
ghost use Rattle.talmuiga_c.specs.MessageFaults.{fault_at, message_fault, open_fault};

use crate::fault::{Fault, kind_number, no_fault};
use icu_message::ParseError;
use kept_messages::OpenError;

/// A fault of a kind at a byte.
fn message_fault_at(byte: usize, kind: u32, thing: u32) -> Fault
    ensures { result ≡ fault_at byte kind thing }
{
    Fault { byte, kind, thing }
}

/// The fault of a text that is no message; of a rejected skeleton also the kind of its fault.
fn message_fault(error: ParseError) -> Fault
    ensures { result ≡ message_fault error }
{
    match error {
        ParseError::TooLong { byte } => message_fault_at(byte, 2, 0),
        ParseError::End { byte } => message_fault_at(byte, 3, 0),
        ParseError::Unopened { byte } => message_fault_at(byte, 4, 0),
        ParseError::OpenQuote { byte } => message_fault_at(byte, 5, 0),
        ParseError::TooDeep { byte } => message_fault_at(byte, 6, 0),
        ParseError::Name { byte } => message_fault_at(byte, 7, 0),
        ParseError::Kind { byte } => message_fault_at(byte, 8, 0),
        ParseError::Style { byte } => message_fault_at(byte, 9, 0),
        ParseError::Skeleton { kind, byte } => message_fault_at(byte, 10, kind_number(kind)),
        ParseError::TwoKinds { byte } => message_fault_at(byte, 11, 0),
        ParseError::Offset { byte } => message_fault_at(byte, 12, 0),
        ParseError::Key { byte } => message_fault_at(byte, 13, 0),
        ParseError::Repeated { byte } => message_fault_at(byte, 14, 0),
        ParseError::NoOther { byte } => message_fault_at(byte, 15, 0),
        ParseError::Unexpected { byte } => message_fault_at(byte, 16, 0),
        ParseError::OutOfMemory => no_fault(),
    }
}

/// The fault by which a message isn't opened.
pub fn open_fault(error: OpenError) -> Fault
    ensures { result ≡ open_fault error }
{
    match error {
        OpenError::Message(error) => message_fault(error),
        OpenError::Refused(_)
        | OpenError::NoCardinalRules
        | OpenError::NoOrdinalRules
        | OpenError::OutOfMemory => no_fault(),
    }
}
