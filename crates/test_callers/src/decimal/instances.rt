//! What the contract says of the plain formatter and of the compact one: two proved callers that
//! rest on it alone.

ghost use Rattle.std.specs.Prelude.{◌≡◌, ◌↔◌, IfErr, IsErrOf};
ghost use Rattle.fixed_decimal.specs.Size.{size};
ghost use Rattle.icu_decimal.specs.CompactNumber.{ShowsPastLimits};
ghost use Rattle.icu_decimal_interface.specs.Shown.{ShowsCompact, plain_shown};
ghost use Rattle.icu_decimal_interface.specs.WritesSuch.{WritesSuch};
ghost use Rattle.icu_unit.specs.Unit.{unit_events};

use fixed_decimal::Decimal;
use icu_decimal::error::FormatError;
use icu_decimal::{CompactDecimalFormatter, DecimalFormatter};
use icu_unit::UnitFormatter;
use std::alloc::Global;
use writeable::PartsWrite;

/// Over a plain formatter, the number is its digits as they are given. It never overflows, and
/// takes no memory.
pub(super) fn write_plain<S: PartsWrite>(
    alloc: Global,
    unit: &UnitFormatter<DecimalFormatter>,
    value: &Decimal,
    sink: &mut S,
) -> Result<(), FormatError>
    ensures written { WritesSuch S.events S.failures sink.old result (λ n.
        n ≡ plain_shown unit.now.formatter value.now.absolute)
        (unit_events unit.now.formatter.symbols unit.now.rules unit.now.elements value.now.sign)
        sink.new }
    ensures overflow { IsErrOf result FormatError.Overflow ↔ ⊥ }
    ensures only_sink { IfErr result (λ e. e ≡ FormatError.Sink) }
{
    unit.write(alloc, value, sink)
}

/// Over a compact formatter, the number is the nearest compact one.
pub(super) fn write_compact<S: PartsWrite>(
    alloc: Global,
    unit: &UnitFormatter<CompactDecimalFormatter>,
    value: &Decimal,
    sink: &mut S,
) -> Result<(), FormatError>
    ensures written { WritesSuch S.events S.failures sink.old result
        (ShowsCompact unit.now.formatter value.now.absolute)
        (unit_events unit.now.formatter.decimal.symbols unit.now.rules unit.now.elements
        value.now.sign) sink.new }
    ensures overflow { IsErrOf result FormatError.Overflow
        ↔ ShowsPastLimits unit.now.formatter.table (size value.now.absolute) }
{
    unit.write(alloc, value, sink)
}
