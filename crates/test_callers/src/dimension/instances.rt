//! What the contracts say of the plain formatter and of the compact one: proved callers that rest
//! on them alone.

ghost use Rattle.std.specs.Prelude.{◌≡◌, ◌↔◌, IfErr, IsErrOf, OnOk};
ghost use Rattle.fixed_decimal.specs.Size.{size};
ghost use Rattle.fixed_decimal.specs.Unsigned.{IsWithinLimits};
ghost use Rattle.icu_decimal.specs.CompactNumber.{ShowsPastLimits};
ghost use Rattle.icu_decimal_interface.specs.Shown.{ShowsCompact, plain_shown};
ghost use Rattle.icu_decimal_interface.specs.WritesSuch.{WritesSuch};
ghost use Rattle.icu_dimension.specs.Money.{money_events};
ghost use Rattle.icu_dimension.specs.Percent.{hundredfold};

use fixed_decimal::Decimal;
use icu_decimal::error::FormatError;
use icu_decimal::{CompactDecimalFormatter, DecimalFormatter};
use icu_dimension::{CurrencyFormatter, PercentFormatter};
use std::alloc::Global;
use writeable::PartsWrite;

/// Over a plain formatter, an amount is its digits as they are given. It never overflows, and takes
/// no memory.
pub(crate) fn write_plain<S: PartsWrite>(
    alloc: Global,
    money: &CurrencyFormatter<DecimalFormatter>,
    value: &Decimal,
    sink: &mut S,
) -> Result<(), FormatError>
    ensures written { WritesSuch S.events S.failures sink.old result (λ n.
        n ≡ plain_shown money.now.formatter value.now.absolute)
        (money_events money.now.patterns value.now.sign) sink.new }
    ensures overflow { IsErrOf result FormatError.Overflow ↔ ⊥ }
    ensures only_sink { IfErr result (λ e. e ≡ FormatError.Sink) }
{
    money.write(alloc, value, sink)
}

/// Over a compact formatter, it is the nearest compact number.
pub(crate) fn write_compact<S: PartsWrite>(
    alloc: Global,
    money: &CurrencyFormatter<CompactDecimalFormatter>,
    value: &Decimal,
    sink: &mut S,
) -> Result<(), FormatError>
    ensures written { WritesSuch S.events S.failures sink.old result
        (ShowsCompact money.now.formatter value.now.absolute)
        (money_events money.now.patterns value.now.sign) sink.new }
    ensures overflow { IsErrOf result FormatError.Overflow
        ↔ ShowsPastLimits money.now.formatter.table (size value.now.absolute) }
{
    money.write(alloc, value, sink)
}

/// A percent over a plain formatter is the digits of a hundred times the number.
pub(crate) fn write_percent<S: PartsWrite>(
    alloc: Global,
    percent: &PercentFormatter<DecimalFormatter>,
    value: &Decimal,
    sink: &mut S,
) -> Result<(), FormatError>
    ensures written { WritesSuch S.events S.failures sink.old result (λ n.
        n ≡ plain_shown percent.now.formatter (hundredfold value.now.absolute))
        (money_events percent.now.patterns value.now.sign) sink.new }
{
    percent.write(alloc, value, sink)
}
