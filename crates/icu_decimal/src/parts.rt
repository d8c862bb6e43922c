//! The parts of a formatted decimal (ICU4X `parts`).

use writeable::Part;

/// The part around each affix of a plus.
pub const PLUS_SIGN: Part = Part {
    category: "decimal",
    value: "plusSign",
};

/// The part around each affix of a minus.
pub const MINUS_SIGN: Part = Part {
    category: "decimal",
    value: "minusSign",
};

/// The part around the digits at power 0 and above, with their separators.
pub const INTEGER: Part = Part {
    category: "decimal",
    value: "integer",
};

/// The part around the digits below power 0.
pub const FRACTION: Part = Part {
    category: "decimal",
    value: "fraction",
};

/// The part around each separator of groups.
pub const GROUP: Part = Part {
    category: "decimal",
    value: "group",
};

/// The part around the separator of integer and fraction.
pub const DECIMAL: Part = Part {
    category: "decimal",
    value: "decimal",
};
