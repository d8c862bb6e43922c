//! Which precisions fit compact tables.

ghost use Rattle.std.specs.Prelude.{IsTrue, ◌↔◌, pos};
ghost use Rattle.fixed_decimal.specs.Size.{ten_to};
ghost use Rattle.fixed_decimal.specs.Nearest.{IsMultiple};
ghost use Rattle.fixed_decimal.specs.Increments.{unit_of};
ghost use Rattle.number_rounding.specs.Steps.{DividesOne};

use fixed_decimal::RoundingIncrement;
use skeleton_settings::Precision;

/// Whether 1 is a multiple of the increment, if there is one. Numbers are shown by a compact table
/// only then.
// promise: It is true exactly where 1 is a multiple of the increment.
// mutations: divides_one_of_one_left_out
pub fn divides_one(precision: &Precision) -> bool
    ensures { IsTrue result ↔ DividesOne precision.now }
{
    match *precision {
        Precision::Increment {
            increment,
            power,
            ..
        } => increment_divides_one(increment, power),
        _ => true,
    }
}

/// Whether 1 is a multiple of an increment at a power.
fn increment_divides_one(increment: RoundingIncrement, power: i16) -> bool
    ensures { IsTrue result ↔ IsMultiple (unit_of increment power) (ten_to (pos 0)) }
{
    match increment {
        RoundingIncrement::MultiplesOf1 => power <= 0,
        RoundingIncrement::MultiplesOf2 => power < 0,
        RoundingIncrement::MultiplesOf5 => power < 0,
        RoundingIncrement::MultiplesOf25 => power < -1,
    }
}
