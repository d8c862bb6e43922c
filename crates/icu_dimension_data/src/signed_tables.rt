//! The compact tables of the three signs.

ghost use Rattle.std.specs.Prelude.{◌≡◌, IfOk, OnOk, None, map, pos};
ghost use Rattle.fixed_decimal.specs.Size.{place};
ghost use Rattle.std.specs.BTreeMap.{insert_entry};
ghost use Rattle.std.specs.Ordering.{nat_cmp};
ghost use Rattle.icu_decimal_data.specs.CompactTable.{exponent_for};
ghost use Rattle.icu_decimal_data.specs.Kept.{as_table};
ghost use Rattle.icu_dimension_data.specs.ByCategory.{elements_map};
ghost use Rattle.icu_dimension_data.specs.CompactRows.{RowsRise};
ghost use Rattle.icu_dimension_data.specs.LentTexts.{lent_texts};
ghost use Rattle.icu_dimension_data.specs.SignedTables.{compact_refusal, entry_for, has_exponents, pattern_for, table_for, tables_for, with_exponents};
ghost use Rattle.icu_provider.specs.Answer.{Answers};

use crate::affix_texts::AffixTexts;
use crate::by_category::{SlotMaker, elements_made, other_of};
use crate::cldr_pattern::CldrPattern;
use crate::compact_currency_patterns::CompactCurrencyPatterns;
use crate::compact_rows::{CompactRow, CompactRows};
use fixed_decimal::Sign;
use icu_decimal_data::{CompactError, CompactPatterns};
use icu_pattern::{Pattern, SinglePlaceholder};
use icu_plurals::PluralElements;
use icu_provider::{DataError, DataErrorKind};
use std::alloc::{AllocError, Global};
use std::collections::BTreeMap;

/// Patterns for plural categories.
type Patterns = PluralElements<Pattern<SinglePlaceholder>>;

/// A pattern of money for a sign, with these texts in it.
fn pattern_for(
    alloc: Global,
    pattern: &CldrPattern,
    texts: &AffixTexts<'_>,
    digits: &[char; 10],
    sign: Sign,
) -> Result<Pattern<SinglePlaceholder>, AllocError>
    ensures { IfOk result (λ p.
        p ≡ pattern_for digits.now (lent_texts texts.now) sign pattern.now) }
{
    let signed = pattern.resolve(alloc, texts, digits)?;
    match signed.for_sign(sign).to_pattern(alloc) {
        Ok(pattern) => Ok(pattern),
        Err(_) => Err(AllocError),
    }
}

/// Patterns of money, for a sign and with these texts in them.
#[derive(Drop)]
struct PatternsFor<'a, 't> {
    patterns: &'a PluralElements<CldrPattern>,
    texts: &'a AffixTexts<'t>,
    digits: &'a [char; 10],
    sign: Sign,
}

impl SlotMaker for PatternsFor<'_, '_> {
    type Made = Pattern<SinglePlaceholder>;

    ghost use Rattle.std.specs.Prelude.{None, option_map, slice_index_or};
    ghost use Rattle.icu_plurals.specs.Elements.{slots};
    ghost use Rattle.icu_dimension_data.specs.LentTexts.{lent_texts};
    ghost use Rattle.icu_dimension_data.specs.SignedTables.{pattern_for};

    ghost in_slot = { λ p slot. option_map
        (pattern_for p.digits.now (lent_texts p.texts.now) p.sign)
        (slice_index_or (slots p.patterns.now) slot None) };

    ghost for_others = { λ p.
        pattern_for p.digits.now (lent_texts p.texts.now) p.sign p.patterns.now.other };

    fn make(
        &self,
        alloc: Global,
        slot: u8,
    ) -> Result<Option<Pattern<SinglePlaceholder>>, AllocError> {
        match self.patterns.slot(slot) {
            Some(pattern) => {
                let pattern = pattern_for(alloc, pattern, self.texts, self.digits, self.sign)?;
                Ok(Some(pattern))
            }
            None => Ok(None),
        }
    }

    fn make_other(&self, alloc: Global) -> Result<Pattern<SinglePlaceholder>, AllocError> {
        let pattern = other_of(self.patterns);
        pattern_for(alloc, pattern, self.texts, self.digits, self.sign)
    }
}

/// The patterns of a row for a sign.
fn patterns_for(
    alloc: Global,
    row: &CompactRow,
    texts: &AffixTexts<'_>,
    digits: &[char; 10],
    sign: Sign,
) -> Result<Patterns, AllocError>
    ensures { IfOk result (λ e.
        e ≡ elements_map (pattern_for digits.now (lent_texts texts.now) sign)
        row.now.patterns) }
{
    let patterns = &row.patterns;
    elements_made(
        alloc,
        &PatternsFor {
            patterns,
            texts,
            digits,
            sign,
        },
    )
}

/// Adds an entry to the map.
fn with_entry(
    map: &mut BTreeMap<u8, (u8, Patterns)>,
    log10_type: u8,
    exponent: u8,
    patterns: Patterns,
) -> Result<(), AllocError>
    ensures { OnOk result (map.new.entries ≡ insert_entry nat_cmp map.old.entries log10_type
        (exponent, patterns)) }
{
    match map.insert(log10_type, (exponent, patterns)) {
        Ok(_) => Ok(()),
        Err(_) => Err(AllocError),
    }
}

/// The map of the rows with their patterns for a sign.
fn entries_for(
    alloc: Global,
    rows: &[CompactRow],
    texts: &AffixTexts<'_>,
    digits: &[char; 10],
    sign: Sign,
) -> Result<BTreeMap<u8, (u8, Patterns)>, AllocError>
    requires { RowsRise None rows.now }
    ensures { IfOk result (λ m.
        as_table m.entries ≡ map (entry_for digits.now (lent_texts texts.now) sign) rows.now) }
{
    let mut entries = BTreeMap::new(alloc);
    for index in 0..rows.len() {
        let row = &rows[index];
        let patterns = patterns_for(alloc, row, texts, digits, sign)?;
        with_entry(&mut entries, row.log10_type, row.exponent, patterns)?;
    }
    Ok(entries)
}

/// How a table is rejected that [`CompactPatterns::new`] rejects.
fn compact_refusal(fault: CompactError) -> DataError
    ensures kind { result.kind ≡ (compact_refusal fault).kind }
    ensures context { result.context.now ≡ (compact_refusal fault).context }
{
    let context = match fault {
        CompactError::ExponentsFall => "compact exponents fall",
        CompactError::ExponentAboveType => "a compact exponent above its type",
        CompactError::TooManyZeros => "a compact type too far above its exponent",
        CompactError::TooLarge => "compact patterns too large",
        CompactError::OutOfMemory => return DataErrorKind::OutOfMemory.into(),
    };
    DataError {
        kind: DataErrorKind::Custom,
        context,
    }
}

/// The exponent that a table has at a type; 0 below its first entry.
fn exponent_at(table: &CompactPatterns<SinglePlaceholder>, log10_type: u8) -> u8
    ensures { result ≡ exponent_for table.now (place (pos log10_type)) }
{
    match table.entry_index(log10_type as i32) {
        Some(index) => table.exponent(index),
        None => 0,
    }
}

/// Whether a table has the exponent of each row at the row's type.
fn has_exponents(table: &CompactPatterns<SinglePlaceholder>, rows: &[CompactRow]) -> bool
    ensures { result ≡ has_exponents table.now rows.now }
{
    for index in 0..rows.len() {
        let row = &rows[index];
        if exponent_at(table, row.log10_type) != row.exponent {
            return false;
        }
    }
    true
}

/// The table, if it has the exponents of its rows.
fn with_exponents(
    table: CompactPatterns<SinglePlaceholder>,
    rows: &[CompactRow],
) -> Result<CompactPatterns<SinglePlaceholder>, DataError>
    ensures { Answers result (with_exponents table rows.now) }
{
    if has_exponents(&table, rows) {
        return Ok(table);
    }
    Err(DataError {
        kind: DataErrorKind::Custom,
        context: "compact patterns repeat under another exponent",
    })
}

/// The table of rows for a sign.
fn table_for(
    alloc: Global,
    rows: &[CompactRow],
    texts: &AffixTexts<'_>,
    digits: &[char; 10],
    sign: Sign,
) -> Result<CompactPatterns<SinglePlaceholder>, DataError>
    requires { RowsRise None rows.now }
    ensures { Answers result (table_for digits.now (lent_texts texts.now) rows.now sign) }
{
    let Ok(entries) = entries_for(alloc, rows, texts, digits, sign) else {
        return Err(DataErrorKind::OutOfMemory.into());
    };
    match CompactPatterns::new(alloc, entries, None) {
        Ok(table) => with_exponents(table, rows),
        Err(fault) => Err(compact_refusal(fault)),
    }
}

impl CompactRows {
    ghost use Rattle.std.specs.Prelude.{IfOk};
    ghost use Rattle.fixed_decimal.specs.declared.signs.Sign.{Sign};
    ghost use Rattle.icu_dimension_data.specs.SignedTables.{HasExponents, table_of};

    /// The tables of the three signs around numbers with these ten digits, with these texts in
    /// their patterns.
    ///
    /// At the type of each row a table has the row's exponent. Rows that make no such table are
    /// rejected as `Custom`, with the reason as its context: a type whose patterns, with these
    /// texts in them, are those of the type before has that one's exponent in a table.
    // promise: Each sign gets the table that the rows make for it.
    // mutations: compact_table_of_plus_for_minus
    #[tactic(auto, unfolding(crate::specs::SignedTables::tables_for))]
    pub fn resolve(
        &self,
        alloc: Global,
        texts: &AffixTexts<'_>,
        digits: &[char; 10],
    ) -> Result<CompactCurrencyPatterns, DataError>
        ensures answer { Answers result
            (tables_for digits.now (lent_texts texts.now) self.now) }
        ensures exponents { IfOk result (λ t.
            (s : Sign) → HasExponents (table_of t s) self.now) }
    {
        let rows = &self.rows;
        let none = table_for(alloc, rows, texts, digits, Sign::None)?;
        let minus = table_for(alloc, rows, texts, digits, Sign::Negative)?;
        let plus = table_for(alloc, rows, texts, digits, Sign::Positive)?;
        Ok(CompactCurrencyPatterns { none, minus, plus })
    }
}
