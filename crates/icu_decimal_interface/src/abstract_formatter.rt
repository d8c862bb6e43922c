//! One interface over both formatters (ICU4X `AbstractFormatter`).

ghost use Rattle.std.specs.Prelude.{◌≡◌, ◌≢◌, ◌↔◌, ◌≤◌, IfOk, IfErr, IsErrOf};
ghost use Rattle.fixed_decimal.specs.Size.{size};
ghost use Rattle.fixed_decimal.specs.Unsigned.{IsUnsigned, Unsigned};
ghost use Rattle.icu_decimal_data.specs.declared.decimal_symbols.DecimalSymbols.{DecimalSymbols};
ghost use Rattle.icu_decimal_interface.specs.Shown.{Shown, framed_events, operands_shown, size_shown};
ghost use Rattle.icu_decimal_interface.specs.ShownLaws.{IsAtTheLimit, IsShownNear};
ghost use Rattle.icu_decimal.specs.Signed.{affixes_for};
ghost use Rattle.icu_decimal.specs.CompactFormat.{CompactFormat};
ghost use Rattle.icu_decimal_interface.specs.Spells.{Spells};
ghost use Rattle.icu_decimal_interface.specs.UsesShown.{UsesShown, WroteSuch};
ghost use Rattle.icu_decimal_interface.specs.WritesSuch.{KeepsLimitSuch, WritesSuch};
ghost use Rattle.writeable.specs.Events.{text_of};
ghost use Rattle.std.specs.String.{string_bytes};

use crate::frame::Frame;
use crate::sealed::Sealed;
use crate::showing::{Alone, AskOperands, UseShown, WriteAndAsk, WriteFramed};
use fixed_decimal::{Sign, UnsignedDecimal};
use icu_decimal::error::FormatError;
use icu_decimal::{CompactDecimalFormatter, Cow, DecimalFormatter, FormattedSign};
use icu_plurals::PluralOperands;
use std::alloc::Global;
use writeable::{EventWriter, PartsWrite, WithParts, Writeable};

/// What formatters of units and currencies write numbers by (ICU4X `AbstractFormatter`).
///
/// Each number determines what is shown for it: a significand times ten to an exponent, and the
/// events that are written. A caller that is generic in the formatter needs no other contracts.
/// The laws compare sizes, which count units smaller than any power of a decimal.
pub trait AbstractFormatter: Sealed {
    /// What is shown for a number: `shows f u n` if the formatter `f` shows `n` for the number `u`.
    ghost shows: { Self → Unsigned → Shown → Type 0 };

    /// What the formatter would show for a number is too large.
    ghost overflows: { Self → Unsigned → Type 0 };

    /// The symbols that hold the affixes of a sign.
    ghost symbols: { Self → DecimalSymbols };

    /// By which digits, plural rules and compact table numbers are written; a plain formatter has
    /// no table.
    ghost format: { Self → CompactFormat };

    /// Showing a number may take memory.
    ghost takes_memory: { Self → Type 0 };

    /// A value with the affixes of a sign around it; this takes no memory.
    fn format_sign<'a, W: Writeable>(&'a self, value: W, sign: Sign) -> FormattedSign<'a, W>
        ensures { result ≡ record {
          affixes = affixes_for (symbols self.now) sign;
          value = value;
        } };

    /// Shows a number to a value of the caller's, which may write it, ask its operands, and show a
    /// second number meanwhile. All other calls are made of this one. After an error nothing was
    /// done; `Sink` is never reported.
    // promise: A caller's value is used with what is shown, or not at all.
    // mutations: framed_digits_of_the_input
    fn with_shown<V: UseShown>(
        &self,
        alloc: Global,
        value: &UnsignedDecimal,
        user: &mut V,
    ) -> Result<V::Output, FormatError>
        ensures used { UsesShown (shows self.now value.now) V.used user.old result user.new }
        ensures overflow { IsErrOf result FormatError.Overflow ↔ overflows self.now value.now }
        ensures memory { IsErrOf result FormatError.OutOfMemory → takes_memory self.now };

    /// Writes what is shown for a number in a frame into any writer. `Sink` only where the writer
    /// failed; after the other errors it is unchanged.
    // promise: Any writer gets what is shown, in the frame.
    // mutations: framed_writer_touched_before_an_overflow
    final fn write_framed_into<K: EventWriter, T: Frame>(
        &self,
        alloc: Global,
        value: &UnsignedDecimal,
        frame: &T,
        out: &mut K,
    ) -> Result<(), FormatError>
        ensures written { WroteSuch K.wrote out.old result (shows self.now value.now)
            (framed_events (T.framed frame.now)) out.new }
        ensures overflow { IsErrOf result FormatError.Overflow ↔ overflows self.now value.now }
        ensures memory { IsErrOf result FormatError.OutOfMemory → takes_memory self.now }
    {
        let mut writing = WriteFramed::new(frame, out);
        let result = self.with_shown(alloc, value, &mut writing);
        writing.into_inner();
        match result {
            Ok(Ok(())) => Ok(()),
            Ok(Err(_)) => Err(FormatError::Sink),
            Err(error) => Err(error),
        }
    }

    /// Writes what is shown for a number, without a sign, into any writer, and returns its plural
    /// operands. Its errors are those of `write_framed_into`.
    final fn write_shown_into<K: EventWriter>(
        &self,
        alloc: Global,
        value: &UnsignedDecimal,
        out: &mut K,
    ) -> Result<PluralOperands, FormatError>
        ensures written { WroteSuch K.wrote out.old result (shows self.now value.now)
            (λ n. n.events) out.new }
        ensures shown { IfOk result (λ o. (n : Shown) × shows self.now value.now n
            × (operands_shown n ≡ o)) }
        ensures overflow { IsErrOf result FormatError.Overflow ↔ overflows self.now value.now }
        ensures memory { IsErrOf result FormatError.OutOfMemory → takes_memory self.now }
    {
        let mut asking = WriteAndAsk::new(out);
        let result = self.with_shown(alloc, value, &mut asking);
        asking.into_inner();
        match result {
            Ok((Ok(()), operands)) => Ok(operands),
            Ok((Err(_), _)) => Err(FormatError::Sink),
            Err(error) => Err(error),
        }
    }

    /// Writes what is shown for a number, without a sign. `Overflow` exactly where that is too
    /// large. `Sink` only where the sink failed in this call; it then holds a beginning of the
    /// events. After the other errors it is unchanged.
    // promise: What is shown is written, or the sink holds a beginning.
    // mutations: interface_compact_number_not_written
    final fn write_unsigned<S: PartsWrite>(
        &self,
        alloc: Global,
        value: &UnsignedDecimal,
        sink: &mut S,
    ) -> Result<(), FormatError>
        ensures written { WritesSuch S.events S.failures sink.old result (shows self.now value.now)
            (λ n. n.events) sink.new }
        ensures limited { KeepsLimitSuch S.events S.limit S.refusals sink.old result
            (shows self.now value.now) (λ n. n.events) sink.new }
        ensures overflow { IsErrOf result FormatError.Overflow ↔ overflows self.now value.now }
        ensures memory { IsErrOf result FormatError.OutOfMemory → takes_memory self.now }
    {
        self.write_framed(alloc, value, &Alone, sink)
    }

    /// The plural operands of what is shown for a number. `Overflow` exactly where that is too
    /// large; `Sink` is never reported.
    final fn plural_operands(
        &self,
        alloc: Global,
        value: &UnsignedDecimal,
    ) -> Result<PluralOperands, FormatError>
        ensures shown { IfOk result (λ o. (n : Shown) × shows self.now value.now n
            × (operands_shown n ≡ o)) }
        ensures overflow { IsErrOf result FormatError.Overflow ↔ overflows self.now value.now }
        ensures no_sink { IfErr result (λ e. e ≢ FormatError.Sink) }
        ensures memory { IsErrOf result FormatError.OutOfMemory → takes_memory self.now }
    {
        self.with_shown(alloc, value, &mut AskOperands)
    }

    /// Does what `write_unsigned` and `plural_operands` do, but rounds the number once.
    // promise: It writes what is shown, and returns its operands.
    // mutations: interface_shown_operands_of_the_input
    final fn write_shown<S: PartsWrite>(
        &self,
        alloc: Global,
        value: &UnsignedDecimal,
        sink: &mut S,
    ) -> Result<PluralOperands, FormatError>
        ensures written { WritesSuch S.events S.failures sink.old result
            (shows self.now value.now) (λ n. n.events) sink.new }
        ensures limited { KeepsLimitSuch S.events S.limit S.refusals sink.old result
            (shows self.now value.now) (λ n. n.events) sink.new }
        ensures shown { IfOk result (λ o. (n : Shown) × shows self.now value.now n
            × (operands_shown n ≡ o)) }
        ensures overflow { IsErrOf result FormatError.Overflow ↔ overflows self.now value.now }
        ensures memory { IsErrOf result FormatError.OutOfMemory → takes_memory self.now }
    {
        let mut out = WithParts { sink };
        let result = self.write_shown_into(alloc, value, &mut out);
        out.into_inner();
        result
    }

    /// Writes what is shown for a number in a frame, which may ask for its plural operands. The
    /// number is rounded once, and isn't buffered. Errors are those of `write_unsigned`.
    // promise: What is shown is written inside of the frame.
    // mutations: framed_without_the_frame, framed_digits_of_the_input
    final fn write_framed<S: PartsWrite, T: Frame>(
        &self,
        alloc: Global,
        value: &UnsignedDecimal,
        frame: &T,
        sink: &mut S,
    ) -> Result<(), FormatError>
        ensures written { WritesSuch S.events S.failures sink.old result (shows self.now value.now)
            (framed_events (T.framed frame.now)) sink.new }
        ensures limited { KeepsLimitSuch S.events S.limit S.refusals sink.old result
            (shows self.now value.now) (framed_events (T.framed frame.now)) sink.new }
        ensures overflow { IsErrOf result FormatError.Overflow ↔ overflows self.now value.now }
        ensures memory { IsErrOf result FormatError.OutOfMemory → takes_memory self.now }
    {
        let mut out = WithParts { sink };
        let result = self.write_framed_into(alloc, value, frame, &mut out);
        out.into_inner();
        result
    }

    /// The characters of what is shown for a number in a frame, without parts. `Overflow` exactly
    /// where that is too large; `Sink` is never reported.
    final fn framed_to_string<T: Frame>(
        &self,
        alloc: Global,
        value: &UnsignedDecimal,
        frame: &T,
    ) -> Result<String, FormatError>
        ensures text { IfOk result (λ t. (n : Shown) × shows self.now value.now n
            × (string_bytes t ≡ text_of (framed_events (T.framed frame.now) n))) }
        ensures overflow { IsErrOf result FormatError.Overflow ↔ overflows self.now value.now }
        ensures no_sink { IfErr result (λ e. e ≢ FormatError.Sink) }
    {
        let mut text = String::new(alloc);
        match self.write_framed_into(alloc, value, frame, &mut text) {
            Ok(()) => Ok(text),
            Err(FormatError::Overflow) => Err(FormatError::Overflow),
            Err(_) => Err(FormatError::OutOfMemory),
        }
    }

    /// A number determines what is shown for it.
    ghost one_shown: { (f : Self) (u : Unsigned) (n m : Shown) → shows f u n → shows f u m →
        n ≡ m };

    /// The significand that is shown for a decimal is a decimal.
    ghost decimal: { (f : Self) (u : Unsigned) (n : Shown) → IsUnsigned u → shows f u n →
        IsUnsigned n.significand };

    /// 0 is shown as 0, and no other number is. Any other number is shown as a size from the power
    /// of ten of its magnitude up to the next power of ten, both included.
    ghost near: { (f : Self) (u : Unsigned) (n : Shown) → shows f u n →
        IsShownNear (size u) (size_shown n) };

    /// Of two numbers the one that isn't larger never shows the larger size.
    ghost in_order: { (f : Self) (u v : Unsigned) (n m : Shown) → shows f u n → shows f v m →
        size u ≤ size v → size_shown n ≤ size_shown m };

    /// A number whose size is a shown size is shown as that size.
    ghost again: { (f : Self) (u v : Unsigned) (n m : Shown) → shows f u n → shows f v m →
        size v ≡ size_shown n → size_shown m ≡ size_shown n };

    /// Such a number overflows only if the number overflows for which that size is shown.
    ghost again_within: { (f : Self) (u v : Unsigned) (n : Shown) → shows f u n →
        size v ≡ size_shown n → overflows f v → overflows f u };

    /// A number overflows only where the next power of ten above it is past the limits.
    ghost overflow_at_the_limit: { (f : Self) (u : Unsigned) → overflows f u →
        IsAtTheLimit (size u) };

    /// What is shown spells its significand and its exponent: its characters are the digits of the
    /// significand as the plain formatter writes them, in the pattern of the shown size.
    // promise: The characters spell the significand and the exponent.
    // mutations: compact_number_spelled_without_its_pattern
    ghost spells: { (f : Self) (u : Unsigned) (n : Shown) → shows f u n → Spells (format f) n };
}

impl AbstractFormatter for DecimalFormatter {
    ghost use Rattle.std.specs.Prelude.{◌≡◌};
    ghost use Rattle.std.proofs.Common.{◌∙◌, sym};
    ghost use Rattle.icu_decimal_interface.specs.Shown.{Shown, plain_shown};
    ghost use Rattle.icu_decimal_interface.specs.Spells.{without_table};
    ghost use Rattle.icu_decimal_interface.specs.SpellsLaws.{plain_spells};
    ghost use Rattle.icu_decimal_interface.specs.KeptLaws.{plain_again, plain_in_order, plain_is_decimal, plain_near};

    ghost shows = { λ f u n. n ≡ plain_shown f u };

    ghost overflows = { λ f u. ⊥ };

    ghost symbols = { λ f. f.symbols };

    ghost format = { without_table };

    ghost takes_memory = { λ f. ⊥ };

    ghost one_shown = { λ f u n m h k. h ∙ sym k };

    ghost decimal = { plain_is_decimal };

    ghost near = { plain_near };

    ghost in_order = { plain_in_order };

    ghost again = { plain_again };

    ghost again_within = { λ f u v n h same past. past };

    ghost overflow_at_the_limit = { λ f u past. absurd past };

    ghost spells = { plain_spells };

    fn format_sign<'a, W: Writeable>(&'a self, value: W, sign: Sign) -> FormattedSign<'a, W> {
        self.format_sign(sign, value)
    }

    fn with_shown<V: UseShown>(
        &self,
        alloc: Global,
        value: &UnsignedDecimal,
        user: &mut V,
    ) -> Result<V::Output, FormatError> {
        let number = self.format_unsigned(Cow::Borrowed(value));
        Ok(user.use_shown(alloc, &number))
    }
}

impl AbstractFormatter for CompactDecimalFormatter {
    ghost use Rattle.std.specs.Prelude.{⊤};
    ghost use Rattle.fixed_decimal.specs.Size.{size};
    ghost use Rattle.icu_decimal.specs.CompactNumber.{ShowsPastLimits};
    ghost use Rattle.icu_decimal_interface.specs.Shown.{ShowsCompact};
    ghost use Rattle.icu_decimal_interface.specs.SpellsLaws.{compact_spells};
    ghost use Rattle.icu_decimal_interface.specs.KeptLaws.{compact_again, compact_again_within, compact_at_the_limit, compact_in_order, compact_is_decimal, compact_near};

    ghost shows = { ShowsCompact };

    ghost overflows = { λ f u. ShowsPastLimits f.table (size u) };

    ghost symbols = { λ f. f.decimal.symbols };

    ghost format = { λ f. f };

    ghost takes_memory = { λ f. ⊤ };

    ghost one_shown = { λ f u n m h k. k.alone n h.is_shown };

    ghost decimal = { compact_is_decimal };

    ghost near = { compact_near };

    ghost in_order = { compact_in_order };

    ghost again = { compact_again };

    ghost again_within = { compact_again_within };

    ghost overflow_at_the_limit = { compact_at_the_limit };

    ghost spells = { compact_spells };

    fn format_sign<'a, W: Writeable>(&'a self, value: W, sign: Sign) -> FormattedSign<'a, W> {
        self.decimal_formatter().format_sign(sign, value)
    }

    fn with_shown<V: UseShown>(
        &self,
        alloc: Global,
        value: &UnsignedDecimal,
        user: &mut V,
    ) -> Result<V::Output, FormatError> {
        let number = self.format_unsigned(alloc, value)?;
        Ok(user.use_shown(alloc, &number))
    }
}
