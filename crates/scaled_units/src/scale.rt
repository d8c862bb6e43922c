//! Scales, bases and letters.

ghost use Rattle.std.specs.Prelude.{◌≡◌, ◌≤◌, ◌^◌, IfSome};
ghost use Rattle.scaled_units.specs.Scales.{base_value, cofactor, places, base_of, letter_power};

/// What is multiplied by itself for a letter.
#[derive(Clone, Copy, Debug, PartialEq, Eq)]
pub enum Base {
    /// 1000.
    Thousand,
    /// 1024.
    Binary,
}

impl Base {
    /// The number.
    pub fn value(self) -> u32
        ensures { result ≡ base_value self }
    {
        match self {
            Base::Thousand => 1000,
            Base::Binary => 1024,
        }
    }

    /// The number which times the base is ten to the base's places.
    pub(crate) fn cofactor(self) -> u32
        ensures value { result ≡ cofactor self }
        ensures small { result ≤ 10 ^ 7 }
    {
        match self {
            Base::Thousand => 1,
            Base::Binary => 9_765_625,
        }
    }

    /// The places of the base.
    pub(crate) fn places(self) -> u8
        ensures value { result ≡ places self }
        ensures small { result ≤ 10 }
    {
        match self {
            Base::Thousand => 3,
            Base::Binary => 10,
        }
    }
}

/// By which suffixes a number is written (`numfmt --to`).
#[derive(Clone, Copy, Debug, PartialEq, Eq)]
pub enum Scale {
    /// Letters for powers of 1000: `1.5K` is 1500.
    Si,
    /// Letters for powers of 1024: `1.5K` is 1536.
    Iec,
    /// Letters with an `i` for powers of 1024: `1.5Ki` is 1536.
    IecI,
}

impl Scale {
    /// The base of the scale's letters.
    pub fn base(self) -> Base
        ensures { result ≡ base_of self }
    {
        match self {
            Scale::Si => Base::Thousand,
            Scale::Iec | Scale::IecI => Base::Binary,
        }
    }
}

/// Which suffixes are read, and what they mean (`numfmt --from`).
#[derive(Clone, Copy, Debug, PartialEq, Eq)]
pub enum FromScale {
    /// No suffix.
    None,
    /// A letter alone for a power of 1000, and with an `i` for a power of 1024.
    Auto,
    /// Letters for powers of 1000.
    Si,
    /// Letters for powers of 1024.
    Iec,
    /// Letters for powers of 1024, each with an `i`; there has to be one.
    IecI,
}

/// A power of a base.
#[derive(Clone, Copy, Debug, PartialEq, Eq)]
pub struct Unit {
    /// The base.
    pub base: Base,
    /// The power, 0 to 8.
    pub power: u8,
}

/// The power of a letter.
pub(crate) fn letter_power(byte: u8) -> Option<u8>
    ensures power { result ≡ letter_power byte }
    ensures small { IfSome result (λ power. power ≤ 8) }
{
    match byte {
        b'K' => Some(1),
        b'M' => Some(2),
        b'G' => Some(3),
        b'T' => Some(4),
        b'P' => Some(5),
        b'E' => Some(6),
        b'Z' => Some(7),
        b'Y' => Some(8),
        _ => None,
    }
}
