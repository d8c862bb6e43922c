//! What holds of a plain formatter as an [`AbstractFormatter`]: the function does nothing, and its
//! contract is the law.

ghost use Rattle.std.specs.Prelude.{◌≡◌};
ghost use Rattle.fixed_decimal.specs.Unsigned.{Unsigned};
ghost use Rattle.icu_decimal.specs.Decimal.{DecimalFormat};
ghost use Rattle.icu_decimal_interface.specs.Shown.{Shown, plain_shown};

use crate::abstract_formatter::AbstractFormatter;
use icu_decimal::DecimalFormatter;

/// A plain formatter shows each number as it is given, which is never too large and takes no
/// memory. So `write_unsigned`, `write_shown` and `write_framed` of it report `Sink` alone, and
/// `plural_operands` reports nothing.
// promise: A plain formatter shows numbers as given, without memory.
// mutations: plain_numbers_take_memory
pub fn plain_is_shown_as_given()
    ensures shows { (f : DecimalFormat) (u : Unsigned) (n : Shown) →
        ⟦<DecimalFormatter as AbstractFormatter>⟧.shows f u n → n ≡ plain_shown f u }
    ensures overflow { (f : DecimalFormat) (u : Unsigned) →
        ¬ ⟦<DecimalFormatter as AbstractFormatter>⟧.overflows f u }
    ensures memory { (f : DecimalFormat) →
        ¬ ⟦<DecimalFormatter as AbstractFormatter>⟧.takes_memory f }
{}
