//! Entries of digits.

ghost use Rattle.std.specs.Prelude.{◌≡◌, IfOk};
ghost use Rattle.std.specs.Str.{chars};
ghost use Rattle.icu_tables.specs.Digits.{ten_in, first_digits};
ghost use Rattle.icu_table_entries.specs.Reading.{Gives};

use icu_provider::{DataLocale, NumberingSystem};
use icu_table_entries::entries::EntryKind;
use icu_table_entries::fields::{pair_in, text_in};
use icu_table_entries::named::system_of;
use icu_table_entries::{Key, Position, TableError};
use serde_json::Value;
use std::alloc::{AllocError, Global};
use std::marker::Model;

/// The digits of a numbering system, that of 0 first.
#[derive(Drop)]
pub struct SystemDigits {
    system: NumberingSystem,
    digits: [char; 10],
}

impl Model for SystemDigits {
    ghost use Rattle.icu_tables.specs.Digits.{SystemDigits as Digits};

    ghost Value = { Digits };

    ghost view = { λ s. record { system = s.system; digits = s.digits } };
}

/// The characters of a text.
fn characters(alloc: Global, text: &str) -> Result<Vec<char>, AllocError>
    ensures { IfOk result (λ v. v.items ≡ chars text.now) }
{
    text.chars().collect(alloc)
}

/// The characters of a text that has exactly ten.
#[tactic(auto, unfolding(crate::specs::Digits::ten_in))]
fn ten_in(alloc: Global, text: &str, key: Key) -> Result<[char; 10], TableError>
    ensures { Gives (λ x. x) result (ten_in key text.now) }
{
    let characters = characters(alloc, text)?;
    match <[char; 10]>::try_from(characters.as_slice()) {
        Ok(digits) => Ok(digits),
        Err(_) => Err(TableError::WrongKind(key)),
    }
}

/// Digits of a numbering system.
pub struct DigitsEntry;

impl EntryKind for DigitsEntry {
    type Entry = SystemDigits;

    ghost use Rattle.std.specs.Prelude.{true};
    ghost use Rattle.icu_tables.specs.Digits.{digits_at};

    ghost read_at = { digits_at };

    ghost serves = { λ locale entry. true };

    #[tactic(auto, unfolding(crate::specs::Digits::digits_at))]
    fn from_entry(
        alloc: Global,
        position: Position,
        value: &Value,
    ) -> Result<Self::Entry, TableError> {
        let (system, text) = pair_in(value, position.key)?;
        let system = text_in(system, position.key)?;
        let text = text_in(text, position.key)?;
        let digits = ten_in(alloc, text, position.key)?;
        let system = system_of(position, system)?;
        Ok(SystemDigits { system, digits })
    }

    /// Digits depend on the system only, not on the locale.
    fn serves(_entry: &Self::Entry, _locale: &DataLocale) -> bool {
        true
    }
}

/// The digits of the first entry of a numbering system.
#[tactic(auto, unfolding(crate::specs::Digits::first_digits))]
pub fn first_digits(entries: &[SystemDigits], system: &str) -> Option<[char; 10]>
    ensures { result ≡ first_digits system.now entries.now }
{
    for entry in entries {
        if system == entry.system.as_str() {
            return Some(entry.digits);
        }
    }
    None
}
