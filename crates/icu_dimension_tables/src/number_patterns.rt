//! Patterns of CLDR in tables.

ghost use Rattle.std.specs.Prelude.{◌≡◌};
ghost use Rattle.icu_table_entries.specs.Reading.{Gives};
ghost use Rattle.icu_dimension_tables.specs.NumberPatterns.{number_pattern_of, pattern_refusal};

use icu_dimension_data::{CldrPattern, PatternFault};
use icu_table_entries::{EntryFault, Position, TableError};
use std::alloc::Global;

/// How an entry is rejected for the first fault of a pattern.
fn pattern_refusal(position: Position, fault: PatternFault) -> TableError
    ensures { result ≡ pattern_refusal position fault }
{
    match fault {
        PatternFault::NoNumber { byte } => position.refusal(EntryFault::NoNumber { byte }),
        PatternFault::TwoNumbers { byte } => position.refusal(EntryFault::TwoNumbers { byte }),
        PatternFault::UnclosedQuote { byte } => position.refusal(EntryFault::UnclosedQuote {
            byte,
        }),
        PatternFault::ThirdSubpattern { byte } => {
            position.refusal(EntryFault::ThirdSubpattern { byte })
        }
        PatternFault::Reserved { byte } => position.refusal(EntryFault::ReservedCharacter { byte }),
        PatternFault::OutOfMemory => TableError::OutOfMemory,
    }
}

/// The pattern of a text.
pub fn number_pattern_of(
    alloc: Global,
    position: Position,
    text: &str,
) -> Result<CldrPattern, TableError>
    ensures { Gives (λ x. x) result (number_pattern_of position text.now) }
{
    match CldrPattern::parse(alloc, text) {
        Ok(pattern) => Ok(pattern),
        Err(fault) => Err(pattern_refusal(position, fault)),
    }
}
