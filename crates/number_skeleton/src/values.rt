//! What a stem and its options set.

ghost use Rattle.std.specs.Prelude.{◌≡◌, ◌+◌, ◌<◌, ◌≤◌, ◌^◌, length};
ghost use Rattle.number_skeleton.specs.Data.{draft_data, drafted};
ghost use Rattle.number_skeleton.specs.Values.{small, small_most, limits_of, fraction, significant, unlimited};
ghost use Rattle.number_skeleton.specs.Values.{beside_counts, beside_end, beside_of, both};
ghost use Rattle.number_skeleton.specs.Values.{digits_at, fraction_at, currency_at, unit_at, integer_at};
ghost use Rattle.number_skeleton.specs.Values.{scale_at, increment_at, system_at, value_of};

use crate::bytes::{behind, is_wild, run_len};
use crate::draft::Draft;
use crate::fault::{FaultKind, SkeletonFault};
use crate::fragments::{
    only_decimal, only_digits, only_grouping, only_integer_digits, only_mode, only_notation,
    only_scale, only_signs, only_system, only_unit, only_width, percent_times_hundred,
};
use crate::numbers::{increment_of, scale_of};
use crate::options::{ended, integer_digits_of, letters_of, option_at, system_of, unit_of};
use crate::stems::{Counts, Stem};
use skeleton_settings::{NumberUnit, Precision, Priority};

/// Counts of digits, each at most 999.
#[derive(Clone, Copy)]
struct Limits {
    /// That many at least.
    least: u16,
    /// That many at most, if there is such a count.
    most: Option<u16>,
}

/// Significant digits beside fraction digits.
#[derive(Clone, Copy)]
struct Beside {
    /// That many at least.
    few: u16,
    /// That many at most.
    many: u16,
    priority: Priority,
    keeps_least: bool,
}

/// A count of digits at a stem.
fn small(start: usize, count: usize) -> Result<u16, SkeletonFault>
    ensures { result ≡ small start count }
{
    if count > 999 {
        return Err(SkeletonFault {
            kind: FaultKind::TooManyDigits,
            byte: start,
        });
    }
    Ok(count as u16)
}

/// A greatest count of digits at a stem.
fn small_most(start: usize, most: Option<usize>) -> Result<Option<u16>, SkeletonFault>
    ensures { result ≡ small_most start most }
{
    match most {
        None => Ok(None),
        Some(most) => Ok(Some(small(start, most)?)),
    }
}

/// The counts of a stem.
#[tactic(auto, unfolding(crate::specs::Values::limits_of))]
fn limits_of(start: usize, counts: Counts) -> Result<Limits, SkeletonFault>
    ensures { result ≡ limits_of start counts }
{
    let least = small(start, counts.least)?;
    let most = small_most(start, counts.most)?;
    Ok(Limits { least, most })
}

/// Fraction digits.
fn fraction(limits: Limits) -> Precision
    ensures { result ≡ fraction limits }
{
    Precision::Fraction {
        least: limits.least,
        most: limits.most,
    }
}

/// Fraction digits beside significant ones.
fn both(limits: Limits, beside: Beside) -> Precision
    ensures { result ≡ both limits beside }
{
    Precision::Both {
        least: limits.least,
        most: limits.most,
        few: beside.few,
        many: beside.many,
        priority: beside.priority,
        keeps_least: beside.keeps_least,
    }
}

/// Significant digits.
fn significant(limits: Limits) -> Precision
    ensures { result ≡ significant limits }
{
    Precision::Significant {
        least: limits.least,
        most: limits.most,
    }
}

/// Any count of fraction digits.
fn unlimited() -> Precision
    ensures { result ≡ unlimited }
{
    Precision::Fraction {
        least: 0,
        most: None,
    }
}

/// That many significant digits.
fn beside_counts(
    few: usize,
    many: usize,
    priority: Priority,
    keeps_least: bool,
) -> Result<Beside, FaultKind>
    requires { few ≤ many }
    ensures { result ≡ beside_counts few many priority keeps_least }
{
    if many > 999 {
        return Err(FaultKind::TooManyDigits);
    }
    Ok(Beside {
        few: few as u16,
        many: many as u16,
        priority,
        keeps_least,
    })
}

/// The significant digits of that many `@`, that many `#` and what stands behind both.
fn beside_end(few: usize, hashes: usize, end: &[u8]) -> Result<Beside, FaultKind>
    requires { few + hashes < 2 ^ 63 }
    ensures { result ≡ beside_end few hashes end.now }
{
    if few == 0 {
        return Err(FaultKind::BadOption);
    }
    if end.is_empty() {
        if few == 1 {
            return beside_counts(1, 1 + hashes, Priority::Strict, true);
        }
        return Err(FaultKind::BadOption);
    }
    if end.len() > 1 {
        return Err(FaultKind::BadOption);
    }
    if is_wild(end[0]) && hashes == 0 {
        return beside_counts(1, few, Priority::Relaxed, true);
    }
    match end[0] {
        b'r' => beside_counts(few, few + hashes, Priority::Relaxed, false),
        b's' => beside_counts(few, few + hashes, Priority::Strict, false),
        _ => Err(FaultKind::BadOption),
    }
}

/// The significant digits of an option.
#[tactic(auto, unfolding(crate::specs::Values::beside_of))]
fn beside_of(word: &[u8]) -> Result<Beside, FaultKind>
    ensures { result ≡ beside_of word.now }
{
    let few = run_len(b'@', word);
    let rest = behind(word, few);
    let hashes = run_len(b'#', rest);
    beside_end(few, hashes, behind(rest, hashes))
}

/// The fault of an option.
fn fault_of_option(at: usize, kind: FaultKind) -> SkeletonFault
    ensures { result ≡ record { kind = kind; byte = at } }
{
    SkeletonFault { kind, byte: at }
}

/// A precision, and `/w` or nothing.
#[tactic(auto, unfolding(crate::specs::Values::digits_at))]
fn digits_at(
    at: usize,
    options: &[u8],
    precision: Precision,
) -> Result<Draft<'static>, SkeletonFault>
    requires { at + length options.now < 2 ^ 64 }
    ensures { drafted result ≡ digits_at at options.now precision }
{
    if options.is_empty() {
        return Ok(only_digits(precision, false));
    }
    let piece = option_at(at, options)?;
    if piece.word == b"w".as_slice() {
        return ended(piece.next, piece.rest, only_digits(precision, true));
    }
    Err(fault_of_option(piece.at, FaultKind::BadOption))
}

/// Fraction digits, and significant ones or none, and `/w` or nothing.
#[tactic(auto, unfolding(crate::specs::Values::fraction_at))]
fn fraction_at(at: usize, options: &[u8], limits: Limits) -> Result<Draft<'static>, SkeletonFault>
    requires { at + length options.now < 2 ^ 64 }
    ensures { drafted result ≡ fraction_at at options.now limits }
{
    if options.is_empty() {
        return Ok(only_digits(fraction(limits), false));
    }
    let piece = option_at(at, options)?;
    if piece.word == b"w".as_slice() {
        return ended(piece.next, piece.rest, only_digits(fraction(limits), true));
    }
    match beside_of(piece.word) {
        Ok(beside) => digits_at(piece.next, piece.rest, both(limits, beside)),
        Err(kind) => Err(fault_of_option(piece.at, kind)),
    }
}

/// The currency of an option.
#[tactic(auto, unfolding(crate::specs::Values::currency_at))]
fn currency_at(at: usize, options: &[u8]) -> Result<Draft<'_>, SkeletonFault>
    requires { at + length options.now < 2 ^ 64 }
    ensures { drafted result ≡ currency_at at options.now }
{
    let piece = option_at(at, options)?;
    match letters_of(piece.word) {
        Ok(letters) => ended(
            piece.next,
            piece.rest,
            only_unit(NumberUnit::Currency(letters)),
        ),
        Err(kind) => Err(fault_of_option(piece.at, kind)),
    }
}

/// The unit of an option.
#[tactic(auto, unfolding(crate::specs::Values::unit_at))]
fn unit_at(at: usize, options: &[u8]) -> Result<Draft<'_>, SkeletonFault>
    requires { at + length options.now < 2 ^ 64 }
    ensures { drafted result ≡ unit_at at options.now }
{
    let piece = option_at(at, options)?;
    match unit_of(piece.word) {
        Ok(unit) => ended(piece.next, piece.rest, only_unit(unit)),
        Err(kind) => Err(fault_of_option(piece.at, kind)),
    }
}

/// The numbering system of an option.
#[tactic(auto, unfolding(crate::specs::Values::system_at))]
fn system_at(at: usize, options: &[u8]) -> Result<Draft<'_>, SkeletonFault>
    requires { at + length options.now < 2 ^ 64 }
    ensures { drafted result ≡ system_at at options.now }
{
    let piece = option_at(at, options)?;
    match system_of(piece.word) {
        Ok(name) => ended(piece.next, piece.rest, only_system(name)),
        Err(kind) => Err(fault_of_option(piece.at, kind)),
    }
}

/// The least count of integer digits of an option.
#[tactic(auto, unfolding(crate::specs::Values::integer_at))]
fn integer_at(at: usize, options: &[u8]) -> Result<Draft<'_>, SkeletonFault>
    requires { at + length options.now < 2 ^ 64 }
    ensures { drafted result ≡ integer_at at options.now }
{
    let piece = option_at(at, options)?;
    match integer_digits_of(piece.word) {
        Ok(count) => ended(piece.next, piece.rest, only_integer_digits(count)),
        Err(kind) => Err(fault_of_option(piece.at, kind)),
    }
}

/// The power of ten of an option.
#[tactic(auto, unfolding(crate::specs::Values::scale_at))]
fn scale_at(at: usize, options: &[u8]) -> Result<Draft<'_>, SkeletonFault>
    requires { at + length options.now < 2 ^ 64 }
    ensures { drafted result ≡ scale_at at options.now }
{
    let piece = option_at(at, options)?;
    match scale_of(piece.word) {
        Ok(power) => ended(piece.next, piece.rest, only_scale(power)),
        Err(kind) => Err(fault_of_option(piece.at, kind)),
    }
}

/// The increment of an option.
#[tactic(auto, unfolding(crate::specs::Values::increment_at))]
fn increment_at(at: usize, options: &[u8]) -> Result<Draft<'static>, SkeletonFault>
    requires { at + length options.now < 2 ^ 64 }
    ensures { drafted result ≡ increment_at at options.now }
{
    let piece = option_at(at, options)?;
    match increment_of(piece.word) {
        Ok(precision) => digits_at(piece.next, piece.rest, precision),
        Err(kind) => Err(fault_of_option(piece.at, kind)),
    }
}

/// What a stem and its options set; the stem begins at `start` and ends at `at`.
#[tactic(auto, unfolding(crate::specs::Values::value_of))]
pub(crate) fn value_of(
    start: usize,
    at: usize,
    options: &[u8],
    stem: Stem,
) -> Result<Draft<'_>, SkeletonFault>
    requires { at + length options.now < 2 ^ 64 }
    ensures { drafted result ≡ value_of start at options.now stem }
{
    match stem {
        Stem::Notation(notation) => ended(at, options, only_notation(notation)),
        Stem::BaseUnit => ended(at, options, only_unit(NumberUnit::None)),
        Stem::Percent => ended(at, options, only_unit(NumberUnit::Percent)),
        Stem::Permille => ended(at, options, only_unit(NumberUnit::Permille)),
        Stem::PercentTimesHundred => ended(at, options, percent_times_hundred()),
        Stem::Currency => currency_at(at, options),
        Stem::UnitName => unit_at(at, options),
        Stem::Width(width) => ended(at, options, only_width(width)),
        Stem::Unlimited => digits_at(at, options, unlimited()),
        Stem::Fraction(counts) => fraction_at(at, options, limits_of(start, counts)?),
        Stem::Significant(counts) => {
            digits_at(at, options, significant(limits_of(start, counts)?))
        }
        Stem::CurrencyPrecision(is_cash) => {
            digits_at(at, options, Precision::Currency { is_cash })
        }
        Stem::Increment => increment_at(at, options),
        Stem::Mode(mode) => ended(at, options, only_mode(mode)),
        Stem::IntegerZeros(count) => {
            ended(at, options, only_integer_digits(small(start, count)?))
        }
        Stem::IntegerWidth => integer_at(at, options),
        Stem::Scale => scale_at(at, options),
        Stem::Grouping(grouping) => ended(at, options, only_grouping(grouping)),
        Stem::Latin => ended(at, options, only_system("latn")),
        Stem::System => system_at(at, options),
        Stem::Sign(signs) => ended(at, options, only_signs(signs)),
        Stem::DecimalAuto => ended(at, options, only_decimal()),
    }
}
