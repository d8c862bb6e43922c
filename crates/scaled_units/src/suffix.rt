//! The suffix of a text, and its unit.

ghost use Rattle.std.specs.Prelude.{◌≡◌, ◌+◌, ◌≤◌, ◌<◌, ◌^◌, IfOk, length};
ghost use Rattle.scaled_units.specs.Suffixes.{is_of_number, number_length, ended, unit_without, auto_unit, iec_i_unit};
ghost use Rattle.scaled_units.specs.Suffixes.{letter_unit, suffix_unit};

use crate::scale::letter_power;
use crate::{Base, FromScale, NotScaled, Unit};

/// Whether numbers have such a byte.
fn is_of_number(byte: u8) -> bool
    ensures { result ≡ is_of_number byte }
{
    byte.is_ascii_digit() || byte == b'.' || byte == b'-' || byte == b'+'
}

/// How many bytes the number of a text has.
pub(crate) fn number_length(text: &[u8]) -> usize
    ensures count { result ≡ number_length text.now }
    ensures within { result ≤ length text.now }
{
    let mut count = 0;
    while count < text.len() && is_of_number(text[count]) {
        count += 1;
    }
    count
}

/// The unit of a suffix that begins at a byte.
pub(crate) fn suffix_unit(scale: FromScale, at: usize, suffix: &[u8]) -> Result<Unit, NotScaled>
    requires { at + 2 < 2 ^ 64 }
    ensures unit { result ≡ suffix_unit scale at suffix.now }
    ensures small { IfOk result (λ unit. unit.power ≤ 8) }
{
    match suffix {
        [] => unit_without(scale, at),
        [byte, rest @ ..] => match letter_power(*byte) {
            Some(power) => letter_unit(scale, power, at, rest),
            None => Err(NotScaled::UnknownSuffix { byte: at }),
        },
    }
}

/// The unit without a suffix.
fn unit_without(scale: FromScale, at: usize) -> Result<Unit, NotScaled>
    ensures unit { result ≡ unit_without scale at }
    ensures small { IfOk result (λ unit. unit.power ≤ 8) }
{
    match scale {
        FromScale::None | FromScale::Auto | FromScale::Si => Ok(Unit {
            base: Base::Thousand,
            power: 0,
        }),
        FromScale::Iec => Ok(Unit {
            base: Base::Binary,
            power: 0,
        }),
        FromScale::IecI => Err(NotScaled::MissingI { byte: at }),
    }
}

/// The unit of a letter at a byte, and what is left behind it.
fn letter_unit(scale: FromScale, power: u8, at: usize, rest: &[u8]) -> Result<Unit, NotScaled>
    requires power { power ≤ 8 }
    requires at { at + 2 < 2 ^ 64 }
    ensures unit { result ≡ letter_unit scale power at rest.now }
    ensures small { IfOk result (λ unit. unit.power ≤ 8) }
{
    let thousand = Unit {
        base: Base::Thousand,
        power,
    };
    let binary = Unit {
        base: Base::Binary,
        power,
    };
    match scale {
        FromScale::None => Err(NotScaled::SuffixNotTaken { byte: at }),
        FromScale::Auto => auto_unit(power, at, rest),
        FromScale::Si => ended(thousand, at + 1, rest),
        FromScale::Iec => ended(binary, at + 1, rest),
        FromScale::IecI => iec_i_unit(power, at, rest),
    }
}

/// The unit of a letter by the scale `auto`.
fn auto_unit(power: u8, at: usize, rest: &[u8]) -> Result<Unit, NotScaled>
    requires power { power ≤ 8 }
    requires at { at + 2 < 2 ^ 64 }
    ensures unit { result ≡ auto_unit power at rest.now }
    ensures small { IfOk result (λ unit. unit.power ≤ 8) }
{
    let binary = Unit {
        base: Base::Binary,
        power,
    };
    match rest {
        [] => Ok(Unit {
            base: Base::Thousand,
            power,
        }),
        [b'i', rest @ ..] => ended(binary, at + 2, rest),
        _ => Err(NotScaled::BehindSuffix { byte: at + 1 }),
    }
}

/// The unit of a letter by the scale `iec-i`.
fn iec_i_unit(power: u8, at: usize, rest: &[u8]) -> Result<Unit, NotScaled>
    requires power { power ≤ 8 }
    requires at { at + 2 < 2 ^ 64 }
    ensures unit { result ≡ iec_i_unit power at rest.now }
    ensures small { IfOk result (λ unit. unit.power ≤ 8) }
{
    let binary = Unit {
        base: Base::Binary,
        power,
    };
    match rest {
        [b'i', rest @ ..] => ended(binary, at + 2, rest),
        _ => Err(NotScaled::MissingI { byte: at + 1 }),
    }
}

/// The unit, where nothing is left behind its suffix.
fn ended(unit: Unit, at: usize, rest: &[u8]) -> Result<Unit, NotScaled>
    requires { unit.power ≤ 8 }
    ensures unit { result ≡ ended unit at rest.now }
    ensures small { IfOk result (λ u. u.power ≤ 8) }
{
    if rest.is_empty() {
        Ok(unit)
    } else {
        Err(NotScaled::BehindSuffix { byte: at })
    }
}
