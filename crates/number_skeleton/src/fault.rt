//! Why a skeleton is rejected.

ghost use Rattle.std.specs.Prelude.{◌≡◌};

use thiserror::Error;

/// A setting of a skeleton. Each is set at most once.
#[derive(Clone, Copy, Debug, PartialEq, Eq)]
pub enum Setting {
    /// Compact notation, or none.
    Notation,
    /// What a number counts.
    Unit,
    /// How long the unit is written.
    Width,
    /// Where a number is rounded.
    Precision,
    /// How a number is rounded.
    Mode,
    /// The least count of integer digits.
    IntegerWidth,
    /// The power of ten by which a number is multiplied.
    Scale,
    /// How digits are grouped.
    Grouping,
    /// The numbering system.
    System,
    /// Which signs are written.
    Sign,
    /// Where the decimal separator is written.
    Decimal,
}

/// What ICU reads in a skeleton, and this reader rejects.
#[derive(Clone, Copy, Debug, PartialEq, Eq)]
pub enum Thing {
    /// `scientific`, `E0`.
    Scientific,
    /// `engineering`, `EE0`.
    Engineering,
    /// `decimal-always`.
    DecimalAlways,
    /// `measure-unit/..`.
    MeasureUnit,
    /// `per-measure-unit/..`.
    PerMeasureUnit,
    /// `usage/..`.
    Usage,
    /// `unit-width-formal`.
    Formal,
    /// `unit-width-variant`.
    Variant,
    /// `rounding-mode-half-odd`.
    HalfOdd,
    /// `rounding-mode-unnecessary`.
    Unnecessary,
    /// `integer-width-trunc`, and `integer-width/##0`, which cuts digits off.
    IntegerCutOff,
    /// `integer-width/+`.
    NoIntegerDigit,
    /// `scale/..` by a number that is no power of ten.
    Scale,
    /// `precision-increment/..` by another number than 1, 2, 5 or 25 times a power of ten.
    Increment,
}

/// What is wrong with a skeleton.
#[derive(Clone, Copy, Debug, PartialEq, Eq, Error)]
pub enum FaultKind {
    /// No stem is written so.
    #[error("unknown stem")]
    UnknownStem,
    /// ICU reads it, and this reader doesn't.
    #[error("left out: {}", name_of_thing(*.0))]
    LeftOut(Thing),
    /// It is set already.
    #[error("set twice: {}", name_of_setting(*.0))]
    Repeated(Setting),
    /// A count of digits, or the power of a scale or of an increment, is past 999.
    #[error("more than 999 digits")]
    TooManyDigits,
    /// A slash behind a stem or an option that takes no option.
    #[error("no option is taken here")]
    NoOptionHere,
    /// A slash at the beginning of a token.
    #[error("slash without a stem")]
    StraySlash,
    /// Nothing stands behind a slash.
    #[error("empty option")]
    EmptyOption,
    /// An option that its stem doesn't take.
    #[error("unknown option")]
    BadOption,
    /// A stem without the option that it needs.
    #[error("option missing")]
    OptionMissing,
    /// In compact notation an increment of which 1 is no multiple.
    #[error("increment of which 1 is no multiple, in compact notation")]
    IncrementOfCompact,
}

/// The first fault of a text that is no skeleton, displayed as `left out: scientific, byte 8`.
#[derive(Clone, Copy, Debug, PartialEq, Eq, Error)]
#[error("{kind}, byte {byte}")]
pub struct SkeletonFault {
    pub(crate) kind: FaultKind,
    pub(crate) byte: usize,
}

impl SkeletonFault {
    /// What is wrong.
    // promise: The kind is that of the first fault.
    // mutations: kind_of_another_fault
    pub fn kind(&self) -> FaultKind
        ensures { result ≡ self.now.kind }
    {
        self.kind
    }

    /// The place in the text of the first byte of the stem or of the option that has the fault. For
    /// `NoOptionHere` and `StraySlash` it is the place of the slash, for `EmptyOption` and
    /// `OptionMissing` the place at which an option should begin or a slash stand.
    // promise: The byte is where the first fault stands.
    // mutations: byte_one_too_far
    pub fn byte(&self) -> usize
        ensures { result ≡ self.now.byte }
    {
        self.byte
    }
}

/// A setting in words.
fn name_of_setting(setting: Setting) -> &'static str {
    match setting {
        Setting::Notation => "notation",
        Setting::Unit => "unit",
        Setting::Width => "unit width",
        Setting::Precision => "precision",
        Setting::Mode => "rounding mode",
        Setting::IntegerWidth => "integer width",
        Setting::Scale => "scale",
        Setting::Grouping => "grouping",
        Setting::System => "numbering system",
        Setting::Sign => "sign",
        Setting::Decimal => "decimal separator",
    }
}

/// What is left out, in words.
fn name_of_thing(thing: Thing) -> &'static str {
    match thing {
        Thing::Scientific => "scientific",
        Thing::Engineering => "engineering",
        Thing::DecimalAlways => "decimal-always",
        Thing::MeasureUnit => "measure-unit",
        Thing::PerMeasureUnit => "per-measure-unit",
        Thing::Usage => "usage",
        Thing::Formal => "unit-width-formal",
        Thing::Variant => "unit-width-variant",
        Thing::HalfOdd => "rounding-mode-half-odd",
        Thing::Unnecessary => "rounding-mode-unnecessary",
        Thing::IntegerCutOff => "integer digits that are cut off",
        Thing::NoIntegerDigit => "integer width of no digit",
        Thing::Scale => "scale by a number that is no power of ten",
        Thing::Increment => "increment that isn't 1, 2, 5 or 25 times a power of ten",
    }
}
