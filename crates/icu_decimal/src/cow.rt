//! A value that is borrowed or owned.

ghost use Rattle.std.specs.Prelude.{◌≡◌};
ghost use Rattle.icu_decimal.specs.Cow.{value_of};

use writeable::{EventWriter, WriteFault, Writeable};

/// A value that is borrowed or owned (ICU4X `Cow`).
#[derive(Debug, PartialEq, Eq, Drop)]
pub enum Cow<'a, T> {
    /// A borrowed value.
    Borrowed(&'a T),
    /// An owned value.
    Owned(T),
}

impl<T> Cow<'_, T> {
    /// The value.
    pub fn get(&self) -> &T
        ensures { result.now ≡ value_of self.now }
    {
        match self {
            Cow::Borrowed(value) => value,
            Cow::Owned(value) => value,
        }
    }
}

// The value, wherever it is.
impl<T: Writeable> Writeable for Cow<'_, T> {
    ghost use Rattle.icu_decimal.specs.Cow.{value_of};

    ghost events = { λ c. T.events (value_of c) };

    fn write_events<K: EventWriter>(&self, out: &mut K) -> Result<(), WriteFault> {
        self.get().write_events(out)
    }
}
