//! Percents (ICU4X, `PercentFormatter`).

ghost use Rattle.std.specs.Prelude.{◌≡◌, ◌↔◌, OnOk, IsErrOf, IfOk, IfErr, ◌≢◌};
ghost use Rattle.std.specs.String.{string_bytes};
ghost use Rattle.fixed_decimal.specs.Unsigned.{IsWithinLimits};
ghost use Rattle.writeable.specs.Events.{text_of};
ghost use Rattle.icu_decimal_interface.specs.Shown.{Shown};
ghost use Rattle.icu_decimal_interface.specs.UsesShown.{WroteSuch};
ghost use Rattle.icu_decimal_interface.specs.WritesSuch.{KeepsLimitSuch, WritesSuch};
ghost use Rattle.icu_dimension.specs.Money.{money_events};
ghost use Rattle.icu_dimension.specs.Percent.{IsTooLarge, hundredfold};

use crate::frame::SignFrame;
use crate::hundredfold::percents_of;
use crate::readable::are_readable;
use fixed_decimal::Decimal;
use icu_decimal::DecimalFormatter;
use icu_decimal::error::FormatError;
use icu_decimal_interface::AbstractFormatter;
use icu_dimension_data::SignedPatterns;
use std::alloc::Global;
use std::marker::Model;
use writeable::{EventWriter, PartsWrite, WithParts};

/// Writes numbers as percents, as `12.34%` of 0.1234: a hundred times the number in the percent
/// pattern of its sign.
///
/// In patterns of permilles it writes numbers of permilles by
/// [`write_percents_into`](PercentFormatter::write_percents_into), as `12.3‰` of 12.3.
#[derive(Drop)]
pub struct PercentFormatter<F> {
    formatter: F,
    patterns: SignedPatterns,
}

impl<F> Model for PercentFormatter<F> {
    ghost use Rattle.icu_dimension.specs.Money.{SignedFormat};

    ghost Value = { SignedFormat F };

    ghost view = { λ f. record { formatter = f.formatter; patterns = f.patterns } };
}

impl<F: AbstractFormatter> PercentFormatter<F> {
    /// The formatter of percents in these patterns, those of the locale's percent pattern.
    pub fn new(formatter: F, patterns: SignedPatterns) -> Self
        ensures { result ≡ record { formatter = formatter; patterns = patterns } }
    {
        PercentFormatter {
            formatter,
            patterns,
        }
    }

    /// The percent patterns for each sign (this project's own).
    pub fn patterns(&self) -> &SignedPatterns
        ensures { result.now ≡ self.now.patterns }
    {
        &self.patterns
    }

    /// The formatter of numbers (this project's own).
    pub fn formatter(&self) -> &F
        ensures { result.now ≡ self.now.formatter }
    {
        &self.formatter
    }

    /// Writes a hundred times the number, exactly and without leading zeros, as a percent into any
    /// writer: the parts of the number, and those of the sign and of the percent sign.
    ///
    /// `Overflow` if a hundred times the number has more than 32768 digits at power 0 and above, or
    /// if the formatter overflows for it. After `Overflow` and `OutOfMemory` the writer is
    /// unchanged. `Sink` only where the writer failed. It takes memory for a hundred times the
    /// number.
    pub fn write_into<K: EventWriter>(
        &self,
        alloc: Global,
        value: &Decimal,
        out: &mut K,
    ) -> Result<(), FormatError>
        ensures written { WroteSuch K.wrote out.old result
            (F.shows self.now.formatter (hundredfold value.now.absolute))
            (money_events self.now.patterns value.now.sign) out.new }
        ensures overflow { IsErrOf result FormatError.Overflow
            → IsTooLarge F.overflows self.now.formatter value.now.absolute }
        ensures within { OnOk result
            (¬ (IsTooLarge F.overflows self.now.formatter value.now.absolute)) }
    {
        let hundredfold = percents_of(alloc, &value.absolute)?;
        let frame = SignFrame {
            patterns: &self.patterns,
            sign: value.sign,
        };
        self.formatter
            .write_framed_into(alloc, &hundredfold, &frame, out)
    }

    /// Writes a number of percents into any writer, as `12.34%` of 12.34, with the parts of
    /// [`write_into`](PercentFormatter::write_into) (this project's own; ICU's `percent` without a
    /// scale). In patterns of permilles it is a number of permilles, as `12.3‰` of 12.3 (ICU's
    /// `permille` without a scale).
    ///
    /// After `Overflow` and `OutOfMemory` the writer is unchanged. `Sink` only where the writer
    /// failed. `Overflow` exactly where the formatter overflows. It takes no memory of its own.
    // promise: A number of percents is written as it is, in its pattern.
    // mutations: percents_without_their_sign
    pub fn write_percents_into<K: EventWriter>(
        &self,
        alloc: Global,
        percents: &Decimal,
        out: &mut K,
    ) -> Result<(), FormatError>
        ensures written { WroteSuch K.wrote out.old result
            (F.shows self.now.formatter percents.now.absolute)
            (money_events self.now.patterns percents.now.sign) out.new }
        ensures overflow { IsErrOf result FormatError.Overflow
            ↔ F.overflows self.now.formatter percents.now.absolute }
        ensures memory { IsErrOf result FormatError.OutOfMemory
            → F.takes_memory self.now.formatter }
    {
        let frame = SignFrame {
            patterns: &self.patterns,
            sign: percents.sign,
        };
        self.formatter
            .write_framed_into(alloc, &percents.absolute, &frame, out)
    }

    /// Writes a hundred times the number as a percent to a sink, with the same parts.
    ///
    /// `Overflow` if a hundred times the number has more than 32768 digits at power 0 and above, or
    /// if the formatter overflows for it. After `Overflow` and `OutOfMemory` the sink is unchanged.
    /// `Sink` only where the sink failed in this call, and it then holds a beginning of the events
    /// besides.
    // promise: A percent is a hundred times the number, in its pattern.
    // mutations: percent_of_the_number_itself
    // promise: `Overflow` comes only where a hundred times it is too large.
    // mutations: percent_too_large_told_as_want_of_memory
    pub fn write<S: PartsWrite>(
        &self,
        alloc: Global,
        value: &Decimal,
        sink: &mut S,
    ) -> Result<(), FormatError>
        ensures written { WritesSuch S.events S.failures sink.old result
            (F.shows self.now.formatter (hundredfold value.now.absolute))
            (money_events self.now.patterns value.now.sign) sink.new }
        ensures limited { KeepsLimitSuch S.events S.limit S.refusals sink.old result
            (F.shows self.now.formatter (hundredfold value.now.absolute))
            (money_events self.now.patterns value.now.sign) sink.new }
        ensures overflow { IsErrOf result FormatError.Overflow
            → IsTooLarge F.overflows self.now.formatter value.now.absolute }
        ensures within { OnOk result
            (¬ (IsTooLarge F.overflows self.now.formatter value.now.absolute)) }
    {
        let mut out = WithParts { sink };
        let result = self.write_into(alloc, value, &mut out);
        out.into_inner();
        result
    }

    /// The characters that `write` writes, as a text. `Sink` is never reported.
    pub fn write_to_string(&self, alloc: Global, value: &Decimal) -> Result<String, FormatError>
        ensures text { IfOk result (λ t. (n : Shown)
            × F.shows self.now.formatter (hundredfold value.now.absolute) n
            × (string_bytes t ≡ text_of (money_events self.now.patterns value.now.sign n))) }
        ensures overflow { IsErrOf result FormatError.Overflow
            → IsTooLarge F.overflows self.now.formatter value.now.absolute }
        ensures within { OnOk result
            (¬ (IsTooLarge F.overflows self.now.formatter value.now.absolute)) }
        ensures no_sink { IfErr result (λ e. e ≢ FormatError.Sink) }
    {
        let hundredfold = percents_of(alloc, &value.absolute)?;
        let frame = SignFrame {
            patterns: &self.patterns,
            sign: value.sign,
        };
        self.formatter.framed_to_string(alloc, &hundredfold, &frame)
    }
}

impl PercentFormatter<DecimalFormatter> {
    ghost use Rattle.std.specs.Prelude.{◌↔◌, IsTrue};
    ghost use Rattle.icu_dimension.specs.MoneyReadable.{IsReadableMoney};

    /// Whether each text determines a hundred times its number, and so the number's sign and size
    /// (this project's own).
    ///
    /// It does under the same conditions as for money ([`CurrencyFormatter::is_readable`]), which
    /// shows how a caller uses the answer; the law of percents is [`laws::percent_text_tells`]. It
    /// takes no memory.
    ///
    /// [`CurrencyFormatter::is_readable`]: crate::CurrencyFormatter::is_readable
    /// [`laws::percent_text_tells`]: crate::laws::percent_text_tells
    pub fn is_readable(&self) -> bool
        ensures { IsTrue result ↔ IsReadableMoney self.now }
    {
        are_readable(&self.formatter, &self.patterns)
    }
}
