//! Ranges of decimals.

ghost use Rattle.std.specs.Prelude.{◌≡◌};

use crate::order::is_above;
use fixed_decimal::Decimal;
use std::marker::Model;

/// Two decimals, the first of which isn't above the second (this project's own).
#[derive(Debug, Drop)]
pub struct DecimalRange {
    start: Decimal,
    end: Decimal,
}

impl Model for DecimalRange {
    ghost use Rattle.icu_ranges.specs.Order.{Ends, IsAbove};

    ghost Value = { Ends };

    ghost view = { λ r. record { start = r.start; end = r.end } };

    ghost invariant = { λ r. ¬ (IsAbove r.start r.end) };
}

/// The two decimals aren't a range: the first is above the second. They are handed back.
#[derive(Debug, Drop)]
pub struct Descending {
    /// The first decimal.
    pub start: Decimal,
    /// The second decimal.
    pub end: Decimal,
}

impl DecimalRange {
    ghost use Rattle.std.specs.Prelude.{◌≡◌, ◌↔◌, IfOk, IfErr, IsErr};
    ghost use Rattle.icu_ranges.specs.Order.{IsAbove};

    /// The range from one decimal to another. They are compared by sign and size: -0 is 0, and 1.0
    /// is 1. If the first is above the second, both are handed back.
    // promise: It is rejected exactly if the start is above the end.
    // mutations: range_descending_below_zero
    pub fn try_new(start: Decimal, end: Decimal) -> Result<Self, Descending>
        ensures made { IfOk result (λ r. r ≡ record { start = start; end = end }) }
        ensures descending { IsErr result ↔ IsAbove start end }
        ensures handed_back { IfErr result (λ d. d ≡ record { start = start; end = end }) }
    {
        if is_above(&start, &end) {
            Err(Descending { start, end })
        } else {
            Ok(DecimalRange { start, end })
        }
    }

    /// The lower end.
    pub fn start(&self) -> &Decimal
        ensures start { result.now ≡ self.now.start }
        ensures ascending { ¬ (IsAbove self.now.start self.now.end) }
    {
        &self.start
    }

    /// The upper end.
    pub fn end(&self) -> &Decimal
        ensures end { result.now ≡ self.now.end }
        ensures ascending { ¬ (IsAbove self.now.start self.now.end) }
    {
        &self.end
    }
}
