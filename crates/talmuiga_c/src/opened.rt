//! What lies in a room, by what it is: what a formatter holds, a message, or arguments.

ghost use Rattle.std.specs.Prelude.{◌≡◌};
ghost use Rattle.talmuiga_c.specs.Handle.{HoldsArguments, IsFormatter, IsMessage, AreArguments, empty, holding, holding_arguments, holding_message};
ghost use Rattle.talmuiga_c.specs.declared.held.Held.TheVariants.{Arguments as GivenArguments, Formatter as OpenFormatter, Message as OpenMessage};

use crate::handle::{Lent, Room};
use crate::held::Held;
use crate::kept::Kept;
use kept_messages::{Arguments, LocaleMessage};

impl Room {
    /// Puts what a formatter holds into the room.
    pub fn put(&mut self, kept: Kept)
        requires empty { self.old.held ≡ empty }
        ensures held { self.new.held ≡ holding kept }
    {
        self.hold(Held::Formatter(kept));
    }

    /// Puts a message into the room.
    pub fn put_message(&mut self, message: LocaleMessage)
        requires empty { self.old.held ≡ empty }
        ensures held { self.new.held ≡ holding_message message }
    {
        self.hold(Held::Message(message));
    }

    /// Puts arguments into the room.
    pub fn put_arguments(&mut self, arguments: Arguments)
        requires empty { self.old.held ≡ empty }
        ensures held { self.new.held ≡ holding_arguments arguments }
    {
        self.hold(Held::Arguments(arguments));
    }

    /// Takes arguments out, and leaves room.
    pub fn take_arguments(&mut self) -> Arguments
        requires held { HoldsArguments self.old.held }
        ensures taken { (self.new.held ≡ empty) × (self.old.held ≡ holding_arguments result) }
    {
        match self.take() {
            Held::Arguments(arguments) => arguments,
            _ => unreachable!(),
        }
    }
}

impl Lent {
    /// What a formatter holds.
    pub fn kept(&self) -> &Kept
        requires lent { IsFormatter self.now.held }
        ensures { self.now.held ≡ OpenFormatter result.now }
    {
        match self.held() {
            Held::Formatter(kept) => kept,
            _ => unreachable!(),
        }
    }

    /// A message.
    pub fn message(&self) -> &LocaleMessage
        requires lent { IsMessage self.now.held }
        ensures { self.now.held ≡ OpenMessage result.now }
    {
        match self.held() {
            Held::Message(message) => message,
            _ => unreachable!(),
        }
    }

    /// Arguments.
    pub fn arguments(&self) -> &Arguments
        requires lent { AreArguments self.now.held }
        ensures { self.now.held ≡ GivenArguments result.now }
    {
        match self.held() {
            Held::Arguments(arguments) => arguments,
            _ => unreachable!(),
        }
    }
}
