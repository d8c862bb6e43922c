//! Entries of symbols.

ghost use Rattle.std.specs.Prelude.{option_map};
ghost use Rattle.serde_json.specs.View.{view};
ghost use Rattle.icu_decimal_symbols.specs.LentTexts.{lent_texts};
ghost use Rattle.icu_table_entries.specs.Reading.{Gives};
ghost use Rattle.icu_tables.specs.Symbols.{symbols_of, sizes_at, strings_at, symbol_fields_at};

use icu_decimal_data::SymbolsError;
use icu_decimal_symbols::{DecimalSymbolStrsBuilder, DecimalSymbols, GroupingSizes};
use icu_provider::DataLocale;
use icu_table_entries::entries::EntryKind;
use icu_table_entries::fields::{
    byte_in, member_at, object_in, optional_text_at, text_at, texts_at, triple_in,
};
use icu_table_entries::named::{NamedEntry, name_of};
use icu_table_entries::{EntryFault, Key, Position, TableError};
use serde_json::Value;
use std::alloc::Global;

/// What an entry says, not yet judged.
#[derive(Drop)]
struct SymbolFields<'a> {
    locale: &'a str,
    system: Option<&'a str>,
    strings: DecimalSymbolStrsBuilder<'a>,
    grouping_sizes: GroupingSizes,
}

/// The sizes of groups.
#[tactic(auto, unfolding(crate::specs::Symbols::sizes_at))]
fn sizes_at(value: &Value) -> Result<GroupingSizes, TableError>
    ensures { Gives (λ x. x) result (sizes_at (view value.now)) }
{
    let (primary, (secondary, min_grouping)) = triple_in(
        member_at(value, Key::Sizes)?,
        Key::Sizes,
    )?;
    Ok(GroupingSizes {
        primary: byte_in(primary, Key::Sizes)?,
        secondary: byte_in(secondary, Key::Sizes)?,
        min_grouping: byte_in(min_grouping, Key::Sizes)?,
    })
}

/// The seven texts.
#[tactic(auto, unfolding(crate::specs::Symbols::strings_at))]
fn strings_at(value: &Value) -> Result<DecimalSymbolStrsBuilder<'_>, TableError>
    ensures { Gives lent_texts result (strings_at (view value.now)) }
{
    let (minus_sign_prefix, minus_sign_suffix) = texts_at(value, Key::Minus)?;
    let (plus_sign_prefix, plus_sign_suffix) = texts_at(value, Key::Plus)?;
    Ok(DecimalSymbolStrsBuilder {
        minus_sign_prefix,
        minus_sign_suffix,
        plus_sign_prefix,
        plus_sign_suffix,
        decimal_separator: text_at(value, Key::Decimal)?,
        grouping_separator: text_at(value, Key::Group)?,
        numsys: text_at(value, Key::Numsys)?,
    })
}

/// The fields of an entry.
#[tactic(auto, unfolding(crate::specs::Symbols::symbol_fields_at))]
fn symbol_fields_at(value: &Value, key: Key) -> Result<SymbolFields<'_>, TableError>
    ensures { Gives (λ f. record {
      locale = f.locale.now;
      system = option_map (λ s. s.now) f.system;
      strings = lent_texts f.strings;
      grouping_sizes = f.grouping_sizes;
    }) result
        (symbol_fields_at key (view value.now)) }
{
    let value = object_in(value, key)?;
    Ok(SymbolFields {
        locale: text_at(value, Key::Locale)?,
        system: optional_text_at(value, Key::System)?,
        strings: strings_at(value)?,
        grouping_sizes: sizes_at(value)?,
    })
}

/// The symbols, if the texts are accepted.
#[tactic(auto, unfolding(crate::specs::Symbols::symbols_of))]
fn symbols_of(
    alloc: Global,
    position: Position,
    strings: &DecimalSymbolStrsBuilder<'_>,
    grouping_sizes: GroupingSizes,
) -> Result<DecimalSymbols, TableError>
    ensures { Gives (λ x. x) result (symbols_of position (lent_texts strings.now) grouping_sizes) }
{
    match strings.build(alloc) {
        Ok(strings) => Ok(DecimalSymbols {
            strings,
            grouping_sizes,
        }),
        Err(SymbolsError::TooLarge) => Err(position.refusal(EntryFault::SymbolsTooLarge)),
        Err(SymbolsError::BadNumberingSystem) => {
            Err(position.refusal(EntryFault::BadSymbolsNumberingSystem))
        }
        Err(SymbolsError::OutOfMemory) => Err(TableError::OutOfMemory),
    }
}

/// Symbols under their name.
pub struct SymbolsEntry;

impl EntryKind for SymbolsEntry {
    type Entry = NamedEntry<DecimalSymbols>;

    ghost use Rattle.icu_tables.specs.Symbols.{symbols_at};
    ghost use Rattle.icu_table_entries.specs.Named.{is_of};

    ghost read_at = { symbols_at };

    ghost serves = { is_of };

    #[tactic(auto, unfolding(crate::specs::Symbols::symbols_at))]
    fn from_entry(
        alloc: Global,
        position: Position,
        value: &Value,
    ) -> Result<Self::Entry, TableError> {
        let fields = symbol_fields_at(value, position.key)?;
        let name = name_of(position, fields.locale, fields.system)?;
        let content = symbols_of(alloc, position, &fields.strings, fields.grouping_sizes)?;
        Ok(NamedEntry { name, content })
    }

    fn serves(entry: &Self::Entry, locale: &DataLocale) -> bool {
        entry.name.is_of(locale)
    }
}
