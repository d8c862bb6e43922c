//! The decimal that a form writes for a text, and what writes it.

use crate::form::Form;
use crate::rounded::{form_round, signed};
use crate::scaled::scale;
use decimal_lines::{TextError, read_decimal};
use fixed_decimal::Decimal;
use number_formatters::Formatter;
use std::alloc::Global;

/// The number of a text: as it was read, and as a form writes it, rounded and with its sign (this
/// project's own).
#[derive(Drop)]
pub struct Prepared {
    /// The number that was read, times the power of ten of the form.
    pub read: Decimal,
    /// The number as it is written.
    pub written: Decimal,
}

impl Form {
    ghost use Rattle.std.specs.Prelude.{◌≡◌, Ok, IfErr, IfOk};
    ghost use Rattle.decimal_lines.specs.SingleText.{IsRefusal};
    ghost use Rattle.number_forms.specs.Decimals.{rounded_decimal, scaled_decimal, shown_decimal};

    /// What writes numbers whose digits and sign are given (this project's own).
    pub fn formatter(&self) -> &Formatter
        ensures { result.now ≡ self.now.formatter }
    {
        &self.formatter
    }

    /// The decimal of a text, times the power of ten of the form.
    #[tactic(auto, unfolding(crate::specs::Decimals::scaled_decimal))]
    fn scaled(&self, alloc: Global, text: &[u8]) -> Result<Decimal, TextError>
        ensures ok { IfOk result (λ d.
            scaled_decimal self.now text.now ≡ Ok (d.sign, d.absolute)) }
        ensures refused { IfErr result (λ error.
            IsRefusal (scaled_decimal self.now text.now) error) }
    {
        let mut decimal = read_decimal(alloc, text)?;
        scale(alloc, &mut decimal, self.scale)?;
        Ok(decimal)
    }

    /// The decimal that is written for a number with the sign of its text.
    pub(crate) fn rounded(&self, alloc: Global, mut decimal: Decimal) -> Result<Decimal, TextError>
        ensures ok { IfOk result (λ d.
            rounded_decimal self.now decimal.sign decimal.absolute ≡ Ok (d.sign, d.absolute)) }
        ensures refused { IfErr result (λ error.
            IsRefusal (rounded_decimal self.now decimal.sign decimal.absolute) error) }
    {
        form_round(alloc, &self.formatter, &self.rounding, &mut decimal)?;
        Ok(signed(decimal, self.sign))
    }

    /// The decimal that is written for a text (this project's own): that of the text, times the
    /// power of ten of the form, rounded, and then with the sign that is shown.
    ///
    /// Compact amounts, and compact numbers without digits that are asked for, are rounded by what
    /// writes them, and not here.
    // promise: It is the decimal that is written, rounded, with its sign.
    // mutations: decimal_with_its_own_sign
    #[tactic(auto, unfolding(crate::specs::Decimals::shown_decimal))]
    pub fn decimal(&self, alloc: Global, text: &[u8]) -> Result<Decimal, TextError>
        ensures ok { IfOk result (λ d.
            shown_decimal self.now text.now ≡ Ok (d.sign, d.absolute)) }
        ensures refused { IfErr result (λ error.
            IsRefusal (shown_decimal self.now text.now) error) }
    {
        let decimal = self.scaled(alloc, text)?;
        self.rounded(alloc, decimal)
    }

    /// The number that is rounded for a text, and the decimal that is written for it (this
    /// project's own), for callers that need both: the text is read once, and its number is rounded
    /// once.
    #[tactic(auto, unfolding(crate::specs::Decimals::shown_decimal))]
    pub fn prepare(&self, alloc: Global, text: &[u8]) -> Result<Prepared, TextError>
        ensures read { IfOk result (λ p.
            scaled_decimal self.now text.now ≡ Ok (p.read.sign, p.read.absolute)) }
        ensures written { IfOk result (λ p.
            shown_decimal self.now text.now ≡ Ok (p.written.sign, p.written.absolute)) }
        ensures refused { IfErr result (λ error.
            IsRefusal (shown_decimal self.now text.now) error) }
    {
        let read = self.scaled(alloc, text)?;
        let Ok(copy) = read.copy(alloc) else {
            return Err(TextError::OutOfMemory);
        };
        let written = self.rounded(alloc, copy)?;
        Ok(Prepared { read, written })
    }
}
