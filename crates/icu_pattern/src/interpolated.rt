//! A pattern with a value inserted at its placeholder.

use crate::backend::PatternBackend;
use crate::pattern::{Pattern, PatternRef};
use std::fmt;
use std::marker::Model;
use writeable::{EventWriter, WriteFault, Writeable};

/// A pattern with a value: the literal before the placeholder, the value, the literal after it;
/// without a placeholder the literal alone.
#[derive(Drop)]
pub struct Interpolated<'a, P: PatternBackend, W> {
    pattern: PatternRef<'a, P>,
    value: W,
}

impl<'a, P: PatternBackend, W> Model for Interpolated<'a, P, W> {
    ghost use Rattle.icu_pattern.specs.Filled.{Filled};
    ghost use Rattle.icu_pattern.specs.Refs.{text_of_ref};

    ghost Value = { Filled W };

    ghost view = { λ i. record { pattern = text_of_ref i.pattern; value = i.value } };
}

impl<P: PatternBackend> Pattern<P> {
    ghost use Rattle.std.specs.Prelude.{◌≡◌};

    /// The pattern with a value inserted at its placeholder.
    pub fn interpolate<W: Writeable>(&self, value: W) -> Interpolated<'_, P, W>
        ensures { result ≡ record { pattern = self.now; value = value } }
    {
        self.as_ref().interpolate(value)
    }
}

impl<'a, P: PatternBackend> PatternRef<'a, P> {
    ghost use Rattle.std.specs.Prelude.{◌≡◌};
    ghost use Rattle.icu_pattern.specs.Refs.{text_of_ref};

    /// The pattern with a value inserted at its placeholder.
    pub fn interpolate<W: Writeable>(self, value: W) -> Interpolated<'a, P, W>
        ensures { result ≡ record { pattern = text_of_ref self.entry; value = value } }
    {
        Interpolated {
            pattern: self,
            value,
        }
    }
}

impl<P: PatternBackend, W: Writeable> Writeable for Interpolated<'_, P, W> {
    ghost use Rattle.icu_pattern.specs.Patterns.{interpolated};

    ghost events = { λ i. interpolated i.pattern (W.events i.value) };

    // promise: The value's events stand in the literal, at the place.
    // mutations: filled_prefix_after_the_value, filled_value_left_out
    fn write_events<K: EventWriter>(&self, out: &mut K) -> Result<(), WriteFault> {
        let literal = self.pattern.literal();
        let Some(placeholder) = self.pattern.placeholder() else {
            return out.text(literal);
        };
        out.text(&literal[..placeholder])?;
        self.value.write_events(out)?;
        out.text(&literal[placeholder..])
    }
}

impl<P: PatternBackend, W: Writeable> fmt::Display for Interpolated<'_, P, W> {
    ghost use Rattle.std.specs.Prelude.{Some};
    ghost use Rattle.icu_pattern.specs.Patterns.{interpolated};
    ghost use Rattle.writeable.specs.Events.{text_of};

    ghost output = { λ i. Some (text_of (interpolated i.pattern (W.events i.value))) };

    ghost styled_output = { λ i _. Some (text_of (interpolated i.pattern (W.events i.value))) };

    fn fmt<F: fmt::Write>(&self, f: &mut fmt::Formatter<F>) -> fmt::Result {
        self.write_events(f).map_err(|_| fmt::Error)
    }
}
