//! What holds of all that a formatter writes: each function does nothing, and its contract is the
//! law.

ghost use Rattle.std.specs.Prelude.{◌≡◌, IsTrue};
ghost use Rattle.icu_decimal.specs.Formatted.{signed_number_events, number_events};
ghost use Rattle.fixed_decimal.specs.declared.signs.Sign.{Sign};
ghost use Rattle.fixed_decimal.specs.Unsigned.{Unsigned};
ghost use Rattle.icu_decimal.specs.CompactFormat.{CompactFormat};
ghost use Rattle.icu_decimal.specs.CompactLaws.{OneCompactNumberIsNearest, NearestIsRounded, DecomposedIsOne, NearestKeepsOrder, MagnitudeIsShown};
ghost use Rattle.icu_decimal.specs.CompactLaws.{CompactNumberIsItsNearest, IsUnpadded, IsShownAgain, ShownIsAccepted};
ghost use Rattle.icu_decimal.specs.Laws.{AutoAndAlwaysWriteAlike, CompactAutoAndAlwaysWriteAlike, CompactNoneActsAsAuto, NoneActsAsAuto};
ghost use Rattle.icu_decimal.specs.ReadableLaws.{CompactTextTells, EqualCompactTextsTell, EqualShownTextsTell, EqualTextsTellTheDecimal};
ghost use Rattle.icu_decimal.specs.ReadableLaws.{ShownTextTells, TextTellsTheDecimal};
ghost use Rattle.icu_decimal_data.specs.CompactTable.{IsCompactTable};

use crate::compact_formatter::CompactDecimalFormatter;
use crate::formatted_decimal::{FormattedDecimal, FormattedUnsignedDecimal};
use crate::formatted_sign::FormattedSign;
use fixed_decimal::UnsignedDecimal;
pub use icu_decimal_data::laws::{entries_are_a_compact_table, kept_means_full};
pub use icu_decimal_options::laws::{grouping_is_unique, separators_taken_out};
use icu_decimal_options::options::DecimalFormatterOptions;
use icu_decimal_symbols::DecimalSymbols;
use writeable::Writeable;

/// The strategies `Auto` and `Always` write the same, and so does no strategy: plain numbers, and
/// compact ones by `format` and `format_with_exponent`.
// promise: `Auto`, `Always` and no strategy write the same.
pub fn auto_and_always_write_alike()
    ensures always { AutoAndAlwaysWriteAlike }
    ensures none { NoneActsAsAuto }
    ensures compact_always { CompactAutoAndAlwaysWriteAlike }
    ensures compact_none { CompactNoneActsAsAuto }
{}

/// If a plain formatter is readable, equal texts mean equal decimals: in sign, range and every
/// digit. Texts are compared as lists of characters, and as `format_to_string` returns them.
// promise: If readable, equal plain texts mean equal decimals.
pub fn text_tells_the_decimal()
    ensures characters { TextTellsTheDecimal }
    ensures texts { EqualTextsTellTheDecimal }
{}

/// If a compact formatter is readable, equal texts mean equal signs, significands and exponents,
/// whichever of `format` and `format_with_exponent` wrote them. The same holds for the texts that
/// `format_to_string` returns.
// promise: If readable, equal compact texts mean equal numbers.
pub fn compact_text_tells()
    ensures characters { CompactTextTells }
    ensures texts { EqualCompactTextsTell }
{}

/// The entries of a formatter's table are a compact table, as `given` of [`shown_again`] asks:
/// types rise, exponents don't fall, none is above its type and none is more than 15 below it.
// promise: The entries of a formatter's table are a compact table.
pub fn table_is_compact(formatter: &CompactDecimalFormatter)
    ensures { IsCompactTable formatter.now.table }
{
    entries_are_a_compact_table(&formatter.patterns);
}

/// Equal signed values write equal events, if equal values of the inner type do.
pub fn equal_signed_values_write_equal_events<T: Writeable + PartialEq>()
    ensures { ((x y : _) → IsTrue (T.eq x y) → T.events x ≡ T.events y) →
        (a b : _) → IsTrue (⟦<FormattedSign<'static, T> as PartialEq>⟧.eq a b) →
        ⟦<FormattedSign<'static, T> as Writeable>⟧.events a
        ≡ ⟦<FormattedSign<'static, T> as Writeable>⟧.events b }
{}

/// Equal formatted numbers and decimals write equal events.
// promise: Equal formatted numbers write equal events.
pub fn equal_values_write_equal_events()
    ensures numbers { (a b : _) → IsTrue (⟦<FormattedUnsignedDecimal<'static> as PartialEq>⟧.eq a b)
        → number_events a ≡ number_events b }
    ensures decimals { (a b : _) → IsTrue (⟦<FormattedDecimal<'static> as PartialEq>⟧.eq a b)
        → signed_number_events a ≡ signed_number_events b }
{
    equal_parts_are_the_same();
    equal_signed_values_write_equal_events::<FormattedUnsignedDecimal<'static>>();
}

/// Parts of a format that compare as equal are the same.
fn equal_parts_are_the_same()
    ensures numbers { (a b : _) → IsTrue (⟦<UnsignedDecimal as PartialEq>⟧.eq a b) → a ≡ b }
    ensures options { (a b : _) → IsTrue (⟦<DecimalFormatterOptions as PartialEq>⟧.eq a b) → a ≡ b }
    ensures symbols { (a b : _) → IsTrue (⟦<DecimalSymbols as PartialEq>⟧.eq a b) → a ≡ b }
    ensures digits { (a b : _) → IsTrue (⟦<[char; 10] as PartialEq>⟧.eq a b) → a ≡ b }
{}

/// By any entries each size has exactly one nearest compact number: the nearest multiple of ten to
/// the rounding place of the size's own magnitude, the even one of two equally near. And a decimal
/// determines what is displayed: the size, the entry and the significand.
// promise: Each size has one nearest compact number.
pub fn nearest_is_unique()
    ensures nearest { OneCompactNumberIsNearest }
    ensures rounded { NearestIsRounded }
    ensures decomposed { DecomposedIsOne }
{}

/// Of two sizes the smaller never has the larger nearest compact number. A size other than zero is
/// shown at least as the power of ten of its magnitude. A compact number is shown as itself.
// promise: The smaller of two sizes never shows the larger number.
pub fn smaller_never_shows_larger()
    ensures in_order { NearestKeepsOrder }
    ensures not_lost { MagnitudeIsShown }
    ensures itself { CompactNumberIsItsNearest }
{}

/// The number that is shown is shown again in the same way, for every table. Take a decimal without
/// leading padding, and another of the same sign whose size is the one that is shown for the first:
/// `format` writes both with the same entry, the same significand and the same characters. And
/// `format_with_exponent` accepts the shown significand with the shown exponent, whatever the
/// padding, and writes the same characters.
///
/// If the formatter is readable, two decimals without leading padding are written in the same
/// characters exactly if their signs and their shown numbers are the same. The same holds for the
/// texts that `format_to_string` returns.
// promise: Without padding, what is shown is shown again alike.
// promise: Significand and exponent that are shown are accepted.
// promise: If readable, equal texts mean equal signs and shown sizes.
pub fn shown_again()
    ensures again { (format : CompactFormat) (sign : Sign) (d again : Unsigned) → IsUnpadded d
        → IsUnpadded again → IsShownAgain format sign d again }
    ensures given { ShownIsAccepted }
    ensures readable { ShownTextTells }
    ensures texts { EqualShownTextsTell }
{}
