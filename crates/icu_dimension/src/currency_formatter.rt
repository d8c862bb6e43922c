//! Amounts of money with the symbol of their currency (ICU4X, `CurrencyFormatter`).

ghost use Rattle.std.specs.Prelude.{◌≡◌, ◌↔◌, IfOk, IsErrOf, IfErr, ◌≢◌};
ghost use Rattle.std.specs.String.{string_bytes};
ghost use Rattle.writeable.specs.Events.{text_of};
ghost use Rattle.icu_decimal_interface.specs.Shown.{Shown};
ghost use Rattle.icu_decimal_interface.specs.UsesShown.{WroteSuch};
ghost use Rattle.icu_decimal_interface.specs.WritesSuch.{KeepsLimitSuch, WritesSuch};
ghost use Rattle.icu_dimension.specs.Money.{money_events};

use crate::frame::SignFrame;
use crate::readable::{are_readable, are_told_apart};
use fixed_decimal::Decimal;
use icu_decimal::DecimalFormatter;
use icu_decimal::error::FormatError;
use icu_decimal_interface::AbstractFormatter;
use icu_dimension_data::SignedPatterns;
use std::alloc::Global;
use std::marker::Model;
use writeable::{EventWriter, PartsWrite, WithParts};

/// Writes amounts of money with the symbol of their currency, as `-$1,234.50` or `($1,234.50)`: the
/// number in the pattern of its sign.
///
/// The patterns are those of the currency's symbol, short or narrow, in the locale's standard or
/// accounting pattern ([`CldrPattern::resolve`]); the formatter of numbers has the locale's
/// separators for money, if it has such. The digits of an amount aren't changed: it is rounded
/// before ([`rounded_to`]).
///
/// [`CldrPattern::resolve`]: icu_dimension_data::CldrPattern::resolve
/// [`rounded_to`]: icu_dimension_data::rounded_to
#[derive(Drop)]
pub struct CurrencyFormatter<F> {
    pub(crate) formatter: F,
    pub(crate) patterns: SignedPatterns,
}

impl<F> Model for CurrencyFormatter<F> {
    ghost use Rattle.icu_dimension.specs.Money.{SignedFormat};

    ghost Value = { SignedFormat F };

    ghost view = { λ f. record { formatter = f.formatter; patterns = f.patterns } };
}

impl<F: AbstractFormatter> CurrencyFormatter<F> {
    /// The formatter of amounts in these patterns.
    pub fn new(formatter: F, patterns: SignedPatterns) -> Self
        ensures { result ≡ record { formatter = formatter; patterns = patterns } }
    {
        CurrencyFormatter {
            formatter,
            patterns,
        }
    }

    /// The patterns of money for each sign (this project's own).
    pub fn patterns(&self) -> &SignedPatterns
        ensures { result.now ≡ self.now.patterns }
    {
        &self.patterns
    }

    /// The formatter of numbers (this project's own).
    pub fn formatter(&self) -> &F
        ensures { result.now ≡ self.now.formatter }
    {
        &self.formatter
    }

    /// Writes an amount into any writer: the parts of the number, and those of the sign and of the
    /// symbol.
    ///
    /// After `Overflow` and `OutOfMemory` the writer is unchanged. `Sink` only where the writer
    /// failed. `Overflow` exactly where the formatter overflows. It takes no memory of its own.
    pub fn write_into<K: EventWriter>(
        &self,
        alloc: Global,
        value: &Decimal,
        out: &mut K,
    ) -> Result<(), FormatError>
        ensures written { WroteSuch K.wrote out.old result
            (F.shows self.now.formatter value.now.absolute)
            (money_events self.now.patterns value.now.sign) out.new }
        ensures overflow { IsErrOf result FormatError.Overflow
            ↔ F.overflows self.now.formatter value.now.absolute }
        ensures memory { IsErrOf result FormatError.OutOfMemory
            → F.takes_memory self.now.formatter }
    {
        let frame = SignFrame {
            patterns: &self.patterns,
            sign: value.sign,
        };
        self.formatter
            .write_framed_into(alloc, &value.absolute, &frame, out)
    }

    /// Writes an amount to a sink, with the same parts.
    ///
    /// After `Overflow` and `OutOfMemory` the sink is unchanged. `Sink` only where the sink failed
    /// in this call, and it then holds a beginning of the events besides. `Overflow` exactly where
    /// the formatter overflows.
    // promise: An amount is the shown number in its sign's pattern.
    // mutations: money_of_any_sign_without_one
    pub fn write<S: PartsWrite>(
        &self,
        alloc: Global,
        value: &Decimal,
        sink: &mut S,
    ) -> Result<(), FormatError>
        ensures written { WritesSuch S.events S.failures sink.old result
            (F.shows self.now.formatter value.now.absolute)
            (money_events self.now.patterns value.now.sign) sink.new }
        ensures limited { KeepsLimitSuch S.events S.limit S.refusals sink.old result
            (F.shows self.now.formatter value.now.absolute)
            (money_events self.now.patterns value.now.sign) sink.new }
        ensures overflow { IsErrOf result FormatError.Overflow
            ↔ F.overflows self.now.formatter value.now.absolute }
        ensures memory { IsErrOf result FormatError.OutOfMemory
            → F.takes_memory self.now.formatter }
    {
        let mut out = WithParts { sink };
        let result = self.write_into(alloc, value, &mut out);
        out.into_inner();
        result
    }

    /// The characters that `write` writes, as a text. `Sink` is never reported.
    // promise: The text is that of the amount's events.
    // mutations: text_of_nothing
    pub fn write_to_string(&self, alloc: Global, value: &Decimal) -> Result<String, FormatError>
        ensures text { IfOk result (λ t. (n : Shown)
            × F.shows self.now.formatter value.now.absolute n
            × (string_bytes t ≡ text_of (money_events self.now.patterns value.now.sign n))) }
        ensures overflow { IsErrOf result FormatError.Overflow
            ↔ F.overflows self.now.formatter value.now.absolute }
        ensures no_sink { IfErr result (λ e. e ≢ FormatError.Sink) }
    {
        let frame = SignFrame {
            patterns: &self.patterns,
            sign: value.sign,
        };
        self.formatter
            .framed_to_string(alloc, &value.absolute, &frame)
    }
}

impl CurrencyFormatter<DecimalFormatter> {
    ghost use Rattle.std.specs.Prelude.{◌↔◌, IsTrue};
    ghost use Rattle.icu_dimension.specs.MoneyReadable.{IsReadableMoney};
    ghost use Rattle.icu_dimension.specs.ToldApart.{AreToldApart};

    /// Whether each text determines its amount: the sign, the range and every digit (this project's
    /// own).
    ///
    /// It does if the numbers are readable ([`DecimalFormatter::is_readable`]), if none of their
    /// ten digits stands before or after them, and if no two signs have the same characters there.
    /// So `¤#,##0.00` with `$` is readable; with `$1` it isn't, and by `¤0;¤0` nothing determines
    /// the minus. Characters are compared, not bytes and not parts. It takes no memory.
    ///
    /// Where the answer is true, [`laws::money_text_tells`] says that equal texts are of equal
    /// amounts. A caller calls that law, which does nothing, and its own contract may then conclude
    /// from equal texts that `one` and `other` have the same sign and the same digits:
    ///
    /// ```
    /// money_text_tells();
    /// if !money.is_readable() {
    ///     return None;
    /// }
    /// let first = money.write_to_string(alloc, one).ok()?;
    /// let second = money.write_to_string(alloc, other).ok()?;
    /// Some(first == second)
    /// ```
    ///
    /// [`DecimalFormatter::is_readable`]: icu_decimal::DecimalFormatter::is_readable
    /// [`laws::money_text_tells`]: crate::laws::money_text_tells
    // promise: It decides exactly whether money is readable.
    // mutations: readable_money_plus_taken_for_minus
    pub fn is_readable(&self) -> bool
        ensures { IsTrue result ↔ IsReadableMoney self.now }
    {
        are_readable(&self.formatter, &self.patterns)
    }

    /// Whether each text of either formatter shows which of the two wrote it (this project's own).
    ///
    /// It does if both write the same readable numbers, by equal symbols, digits and options, if
    /// none of the ten digits stands before or after them, and if what stands around numbers by the
    /// one differs from what stands around numbers by the other, whatever the two signs are. So
    /// `$` and `US$` in the patterns of one locale are distinguished, and `$` isn't from itself.
    /// Characters are compared, not bytes and not parts. It takes no memory.
    ///
    /// Where the answer is true, [`laws::told_apart_share_no_text`] says that no text of the one is
    /// a text of the other. A caller calls that law beside this call, as [`is_readable`] shows, and
    /// takes a text that it has from one of the two to be of that one.
    ///
    /// [`is_readable`]: CurrencyFormatter::is_readable
    /// [`laws::told_apart_share_no_text`]: crate::laws::told_apart_share_no_text
    // promise: It decides exactly whether `AreToldApart` holds of both.
    // mutations: told_apart_with_other_digits
    pub fn is_told_apart_from(&self, other: &Self) -> bool
        ensures { IsTrue result ↔ AreToldApart self.now other.now }
    {
        are_told_apart(
            &self.formatter,
            &self.patterns,
            &other.formatter,
            &other.patterns,
        )
    }
}
