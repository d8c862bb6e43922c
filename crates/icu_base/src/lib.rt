//! One door to the crates that all above share: text with parts (`writeable`), patterns
//! (`icu_pattern`), plural rules (`icu_plurals`), and locales, numbering systems and providers of
//! data (`icu_provider`).
#![tactic(auto)]

pub mod laws;

pub use icu_pattern::{
    Interpolated, NoPlaceholder, Pattern, PatternBackend, PatternError, PatternRef,
    SinglePlaceholder, interpolated, pattern,
};
pub use icu_plurals as plurals;
pub use icu_plurals::{
    PluralCategory, PluralElements, PluralOperands, PluralRules, PluralRulesPreferences,
    PluralsCardinalV1, RulesError,
};
pub use icu_provider as provider;
pub use icu_provider::{
    BadLocale, BadNumberingSystem, DataError, DataErrorKind, DataIdentifierBorrowed, DataLocale,
    DataMarker, DataProvider, DataRequest, NumberingSystem, identifier, locale, numbering_system,
};
pub use writeable;
pub use writeable::{
    ASCII_DIGITS, EventWriter, Grouping, OutOfMemory, Part, PartsText, PartsWrite, WriteFault,
    Writeable, event_writer, groups, parts_text, sink,
};
