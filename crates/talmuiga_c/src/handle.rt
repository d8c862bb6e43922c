//! What C keeps, as C holds it: a pointer to room that C gave, in which a formatter, a message or
//! arguments lie while they are open.

ghost use Rattle.std.specs.Prelude.{◌≡◌, Option};
ghost use Rattle.talmuiga_c.specs.declared.held.Held.{Held};
ghost use Rattle.talmuiga_c.specs.Handle.{away, contains, empty, lent_owns, lent_shares, room_owns};

use crate::held::Held;
use std::marker::Model;
use std::ptr;

/// A pointer to room for what C keeps, or to that.
#[repr(C)]
pub struct Room {
    at: *mut u8,
    /// What lies there: nothing yet, what C keeps, or this, but it is lent.
    pub ghost held: { Option (Option Held) },
}

impl Model for Room {
    ghost also_owns = { λ f. room_owns f.at f.held };
}

impl Room {
    /// Puts something into the room.
    pub fn hold(&mut self, held: Held)
        requires empty { self.old.held ≡ empty }
        ensures held { self.new.held ≡ contains held }
    {
        unsafe { ptr::write(self.at as *mut Held, held) };
    }

    /// Takes it out, and leaves room.
    pub fn take(&mut self) -> Held
        requires held { ¬ (self.old.held ≡ away) × ¬ (self.old.held ≡ empty) }
        ensures taken { (self.new.held ≡ empty) × (self.old.held ≡ contains result) }
    {
        unsafe { ptr::read(self.at as *const Held) }
    }

    /// Lends it; nothing in memory changes.
    pub fn lend(&mut self) -> Lent
        requires held { ¬ (self.old.held ≡ away) × ¬ (self.old.held ≡ empty) }
        ensures lent { (self.new ≡ record { at = self.old.at; held = away })
            × ((result.at ≡ self.old.at) × (self.old.held ≡ contains result.held)) }
    {
        Lent {
            at: self.at as *const Held,
        }
    }

    /// Takes back what was lent; nothing in memory changes.
    pub fn back(&mut self, lent: Lent)
        requires away { (self.old.held ≡ away) × (lent.at ≡ self.old.at) }
        ensures held { self.new.held ≡ contains lent.held }
    {
        let Lent { at: _ } = lent;
    }
}

/// What lies in a room, lent.
pub struct Lent {
    at: *const Held,
    /// What is lent.
    pub ghost held: { Held },
}

impl Model for Lent {
    ghost also_owns = { λ l. lent_owns l.at l.held };

    ghost also_shares = { λ l _ κ. lent_shares l.at l.held κ };
}

impl Lent {
    /// What is lent.
    pub fn held(&self) -> &Held
        ensures { result.now ≡ self.now.held }
    {
        unsafe { &*self.at }
    }
}
