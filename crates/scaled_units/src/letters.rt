//! The suffix of a shown number.

ghost use Rattle.std.specs.Prelude.{◌≡◌};
ghost use Rattle.scaled_units.specs.Scales.{letter_text, letter_i_text, suffix_text};

use crate::Scale;

/// The suffix of a power by a scale: `K` or `Ki` of 1; none of 0.
// promise: The suffix has the letter of the power, and its `i`.
// mutations: suffix_without_its_i
pub fn suffix_of(scale: Scale, power: u8) -> &'static str
    ensures { result.now ≡ suffix_text scale power }
{
    match scale {
        Scale::Si | Scale::Iec => letter(power),
        Scale::IecI => letter_with_i(power),
    }
}

/// The letter of a power.
fn letter(power: u8) -> &'static str
    ensures { result.now ≡ letter_text power }
{
    match power {
        1 => "K",
        2 => "M",
        3 => "G",
        4 => "T",
        5 => "P",
        6 => "E",
        7 => "Z",
        8 => "Y",
        _ => "",
    }
}

/// The letter of a power, with an `i`.
fn letter_with_i(power: u8) -> &'static str
    ensures { result.now ≡ letter_i_text power }
{
    match power {
        1 => "Ki",
        2 => "Mi",
        3 => "Gi",
        4 => "Ti",
        5 => "Pi",
        6 => "Ei",
        7 => "Zi",
        8 => "Yi",
        _ => "",
    }
}
