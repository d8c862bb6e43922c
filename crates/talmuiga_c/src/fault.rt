//! What is wrong with a skeleton, in numbers.

ghost use Rattle.std.specs.Prelude.{◌≡◌};
ghost use Rattle.talmuiga_c.specs.SkeletonFaults.{fault_of, kind_number, no_fault, not_utf8_at, setting_number, thing_number, thing_of, unsupported_fault, unsupported_number};

use number_formatters::Unsupported;
use number_skeleton::{FaultKind, Setting, SkeletonFault, Thing};

/// What is wrong with a skeleton; all zeros where nothing is.
#[repr(C)]
#[derive(Clone, Copy)]
pub struct Fault {
    /// Where it stands in the skeleton, in bytes; 0 for what no form has.
    pub byte: usize,
    /// The number of its kind.
    pub kind: u32,
    /// The number of the setting or of what isn't read or written, or 0.
    pub thing: u32,
}

/// The bytes aren't UTF-8.
pub const NOT_UTF8: u32 = 1;

/// It is a skeleton, and no form has what it asks for.
pub const UNSUPPORTED: u32 = 12;

/// Nothing is wrong.
pub fn no_fault() -> Fault
    ensures { result ≡ no_fault }
{
    Fault {
        byte: 0,
        kind: 0,
        thing: 0,
    }
}

/// The bytes are UTF-8 up to this one.
pub fn not_utf8(byte: usize) -> Fault
    ensures { result ≡ not_utf8_at byte }
{
    Fault {
        byte,
        kind: NOT_UTF8,
        thing: 0,
    }
}

/// The number of a setting.
fn setting_number(setting: Setting) -> u32
    ensures { result ≡ setting_number setting }
{
    match setting {
        Setting::Notation => 1,
        Setting::Unit => 2,
        Setting::Width => 3,
        Setting::Precision => 4,
        Setting::Mode => 5,
        Setting::IntegerWidth => 6,
        Setting::Scale => 7,
        Setting::Grouping => 8,
        Setting::System => 9,
        Setting::Sign => 10,
        Setting::Decimal => 11,
    }
}

/// The number of what isn't read.
fn thing_number(thing: Thing) -> u32
    ensures { result ≡ thing_number thing }
{
    match thing {
        Thing::Scientific => 1,
        Thing::Engineering => 2,
        Thing::DecimalAlways => 3,
        Thing::MeasureUnit => 4,
        Thing::PerMeasureUnit => 5,
        Thing::Usage => 6,
        Thing::Formal => 7,
        Thing::Variant => 8,
        Thing::HalfOdd => 9,
        Thing::Unnecessary => 10,
        Thing::IntegerCutOff => 11,
        Thing::NoIntegerDigit => 12,
        Thing::Scale => 13,
        Thing::Increment => 14,
    }
}

/// The number of the kind of a fault.
pub fn kind_number(kind: FaultKind) -> u32
    ensures { result ≡ kind_number kind }
{
    match kind {
        FaultKind::UnknownStem => 2,
        FaultKind::LeftOut(_) => 3,
        FaultKind::Repeated(_) => 4,
        FaultKind::TooManyDigits => 5,
        FaultKind::NoOptionHere => 6,
        FaultKind::StraySlash => 7,
        FaultKind::EmptyOption => 8,
        FaultKind::BadOption => 9,
        FaultKind::OptionMissing => 10,
        FaultKind::IncrementOfCompact => 11,
    }
}

/// The number of the setting or of what isn't read, or 0.
fn thing_of(kind: FaultKind) -> u32
    ensures { result ≡ thing_of kind }
{
    match kind {
        FaultKind::LeftOut(thing) => thing_number(thing),
        FaultKind::Repeated(setting) => setting_number(setting),
        FaultKind::UnknownStem
        | FaultKind::TooManyDigits
        | FaultKind::NoOptionHere
        | FaultKind::StraySlash
        | FaultKind::EmptyOption
        | FaultKind::BadOption
        | FaultKind::OptionMissing
        | FaultKind::IncrementOfCompact => 0,
    }
}

/// The fault of a text that is no skeleton.
pub fn fault_of(fault: SkeletonFault) -> Fault
    ensures { result ≡ fault_of fault }
{
    Fault {
        byte: fault.byte(),
        kind: kind_number(fault.kind()),
        thing: thing_of(fault.kind()),
    }
}

/// The number of what no form has.
fn unsupported_number(thing: Unsupported) -> u32
    ensures { result ≡ unsupported_number thing }
{
    match thing {
        Unsupported::System => 1,
        Unsupported::Currency => 2,
    }
}

/// It is a skeleton, and no form has this.
pub fn unsupported(thing: Unsupported) -> Fault
    ensures { result ≡ unsupported_fault thing }
{
    Fault {
        byte: 0,
        kind: UNSUPPORTED,
        thing: unsupported_number(thing),
    }
}
