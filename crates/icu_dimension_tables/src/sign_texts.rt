//! Texts of signs, none of which is empty.

ghost use Rattle.std.specs.String.{string_bytes};
ghost use Rattle.icu_table_entries.specs.Reading.{Gives};
ghost use Rattle.icu_dimension_tables.specs.SignTexts.{sign_text_of};

use icu_table_entries::{EntryFault, Key, Position, TableError};
use std::alloc::Global;

/// The text under a key, unless it is empty.
pub fn judge_sign(position: Position, name: Key, text: &str) -> Result<&str, TableError>
    ensures { Gives (λ s. s.now) result (sign_text_of position name text.now) }
{
    if text.is_empty() {
        return Err(position.refusal(EntryFault::EmptyText { name }));
    }
    Ok(text)
}

/// The same, with memory of its own.
// promise: An empty text of a sign is rejected by its name.
// mutations: empty_sign_let_through
pub fn sign_text_of(
    alloc: Global,
    position: Position,
    name: Key,
    text: &str,
) -> Result<String, TableError>
    ensures { Gives string_bytes result (sign_text_of position name text.now) }
{
    let text = judge_sign(position, name, text)?;
    Ok(String::from_str(alloc, text)?)
}
