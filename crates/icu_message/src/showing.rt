//! Numbers that a formatter of this project writes.

ghost use Rattle.std.specs.Prelude.{◌≡◌, ◌↔◌, IfOk, IsErrOf};
ghost use Rattle.fixed_decimal.specs.SignDisplay.{is_negative};
ghost use Rattle.icu_message.specs.Numbers.{all_zeros, whole_of};

use crate::shown_number::ShownNumber;
use fixed_decimal::{Decimal, Sign};
use icu_decimal::error::FormatError;
use icu_decimal_interface::AbstractFormatter;
use icu_plurals::PluralOperands;
use std::alloc::Global;
use writeable::Writeable;

fn has_zeros_alone(digits: &[u8]) -> bool
    ensures { result ≡ all_zeros digits.now }
{
    for digit in digits {
        if *digit != 0 {
            return false;
        }
    }
    true
}

fn is_minus(sign: Sign) -> bool
    ensures { result ≡ is_negative sign }
{
    match sign {
        Sign::Negative => true,
        Sign::None | Sign::Positive => false,
    }
}

/// The whole number below 10^18 that a decimal is, if it is one: the number by which the keys `=0`
/// and `=1` of a message pick. `-0` is the whole number 0, and `1.0` is 1.
// promise: `-0` is the whole number 0, `1.0` is 1, and -1 is none.
// mutations: shown_negative_number_is_whole
pub fn whole_number(value: &Decimal) -> Option<u64>
    ensures { result ≡ whole_of (is_negative value.now.sign) value.now.absolute }
{
    let operands = PluralOperands::from_significand_and_exponent(&value.absolute, 0).raw();
    if operands.is_large || !has_zeros_alone(value.absolute.fraction()) {
        return None;
    }
    if is_minus(value.sign) && operands.i != 0 {
        return None;
    }
    Some(operands.i)
}

impl ShownNumber {
    ghost use Rattle.std.specs.Prelude.{◌≡◌, ◌↔◌, IfOk, IsErrOf};
    ghost use Rattle.fixed_decimal.specs.SignDisplay.{is_negative};
    ghost use Rattle.icu_decimal.specs.Signed.{affixed_events, affixes_for};
    ghost use Rattle.icu_decimal_interface.specs.Shown.{Shown, operands_shown};
    ghost use Rattle.icu_message.specs.Numbers.{whole_of};
    ghost use Rattle.writeable.specs.Events.{text_of};

    /// A decimal as a formatter shows it, with its sign: the text, and the operands of what is
    /// shown. The number is rounded once. Its whole number is that of [`whole_number`].
    // promise: Text and operands are those of what the formatter shows.
    // mutations: shown_operands_of_the_input
    pub fn of<F: AbstractFormatter>(
        alloc: Global,
        formatter: &F,
        value: &Decimal,
    ) -> Result<Self, FormatError>
        ensures shown { IfOk result (λ n. (s : Shown)
            × F.shows formatter.now value.now.absolute s
            × (n.operands ≡ operands_shown s)
            × (n.text ≡ text_of (affixed_events
            (affixes_for (F.symbols formatter.now) value.now.sign) s.events))) }
        ensures whole { IfOk result (λ n.
            n.whole ≡ whole_of (is_negative value.now.sign) value.now.absolute) }
        ensures overflow { IsErrOf result FormatError.Overflow
            ↔ F.overflows formatter.now value.now.absolute }
    {
        let mut digits = String::new(alloc);
        let operands = formatter.write_shown_into(alloc, &value.absolute, &mut digits)?;
        let mut text = Vec::new(alloc);
        let signed = formatter.format_sign(digits.as_str(), value.sign);
        match signed.write_events(&mut text) {
            Ok(()) => ShownNumber::of_bytes(alloc, text, operands, whole_number(value)),
            Err(_) => Err(FormatError::OutOfMemory),
        }
    }
}
