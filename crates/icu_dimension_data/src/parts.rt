//! The parts of money, percents and units.

use writeable::Part;

/// The part around a minus sign, as in a formatted decimal.
pub const MINUS_SIGN: Part = Part {
    category: "decimal",
    value: "minusSign",
};

/// The part around a plus sign, as in a formatted decimal.
pub const PLUS_SIGN: Part = Part {
    category: "decimal",
    value: "plusSign",
};

/// The part around the symbol or the name of a currency.
pub const CURRENCY: Part = Part {
    category: "dimension",
    value: "currency",
};

/// The part around a percent sign.
pub const PERCENT_SIGN: Part = Part {
    category: "dimension",
    value: "percentSign",
};

/// The part around a per mille sign.
pub const PER_MILLE_SIGN: Part = Part {
    category: "dimension",
    value: "perMilleSign",
};

/// The part around a unit.
pub const UNIT: Part = Part {
    category: "dimension",
    value: "unit",
};
