//! The canonical text of settings.

ghost use Rattle.std.specs.Prelude.{◌≡◌, ◌<◌, ℕ, List, ◌++◌, IfOk};
ghost use Rattle.std.specs.Char.{encode_utf8};
ghost use Rattle.std.specs.String.{string_bytes};
ghost use Rattle.skeleton_settings.specs.Settings.{unit_data, name_data, skeleton_data};
ghost use Rattle.skeleton_settings.specs.Canonical.{spaced, put, word_data, currency_text, unit_text};
ghost use Rattle.skeleton_settings.specs.Canonical.{digits_text, integer_text, system_text};
ghost use Rattle.skeleton_settings.specs.Canonical.{scale_text, canonical_of, hides_text};
ghost use Rattle.std.specs.Prelude.{option_map};

use crate::canonical_digits::{
    push_number, push_precision, push_repeated, push_token, zeros_above, zeros_below,
};
use crate::canonical_words::{grouping_word, mode_word, notation_word, sign_word, width_word};
use crate::settings::{CurrencyLetters, NumberUnit, Precision, Skeleton};
use fixed_decimal::RoundingIncrement;
use std::alloc::{AllocError, Global};

/// A word behind others, if there is one.
fn push_word(out: &mut String, word: Option<&str>) -> Result<(), AllocError>
    ensures { IfOk result (λ _.
        string_bytes out.new ≡ put (string_bytes out.old) (word_data word.entry)) }
{
    match word {
        None => Ok(()),
        Some(word) => push_token(out, word),
    }
}

/// A character of one byte.
fn push_letter(out: &mut String, byte: u8) -> Result<(), AllocError>
    ensures { IfOk result (λ _. string_bytes out.new ≡ string_bytes out.old ++ encode_utf8 byte) }
{
    out.push(char::from(byte))
}

/// The token of a currency.
#[tactic(auto, using(crate::proofs::Spaced::spaced_more))]
fn push_currency(out: &mut String, letters: CurrencyLetters) -> Result<(), AllocError>
    ensures { IfOk result (λ _.
        string_bytes out.new ≡ spaced (string_bytes out.old) (currency_text letters)) }
{
    push_token(out, "currency/")?;
    push_letter(out, letters.first)?;
    push_letter(out, letters.second)?;
    push_letter(out, letters.third)?;
    Ok(())
}

/// A token of a word and a name.
#[tactic(auto, using(crate::proofs::Spaced::spaced_more))]
fn push_named(out: &mut String, word: &str, name: &str) -> Result<(), AllocError>
    ensures { IfOk result (λ _.
        string_bytes out.new ≡ spaced (string_bytes out.old) (word.now ++ name.now)) }
{
    push_token(out, word)?;
    out.push_str(name)
}

/// The token of a unit.
fn push_unit(out: &mut String, unit: NumberUnit<'_>) -> Result<(), AllocError>
    ensures { IfOk result (λ _.
        string_bytes out.new ≡ put (string_bytes out.old) (unit_text (unit_data unit.entry))) }
{
    match unit {
        NumberUnit::None => Ok(()),
        NumberUnit::Percent => push_token(out, "percent"),
        NumberUnit::Permille => push_token(out, "permille"),
        NumberUnit::Currency(letters) => push_currency(out, letters),
        NumberUnit::Named(name) => push_named(out, "unit/", name),
    }
}

/// The token of a precision, and `/w`.
#[tactic(auto, using(crate::proofs::Spaced::spaced_more, crate::proofs::Spaced::spaced_all))]
fn push_digits(
    out: &mut String,
    precision: Option<Precision>,
    hides_zeros_of_whole: bool,
) -> Result<(), AllocError>
    ensures { IfOk result (λ _. string_bytes out.new ≡
        put (string_bytes out.old) (digits_text precision hides_zeros_of_whole)) }
{
    let Some(precision) = precision else {
        return Ok(());
    };
    push_precision(out, precision)?;
    if hides_zeros_of_whole {
        return out.push_str("/w");
    }
    Ok(())
}

/// The token of the least count of integer digits.
#[tactic(auto, using(crate::proofs::Spaced::spaced_more))]
fn push_integer(out: &mut String, count: u16) -> Result<(), AllocError>
    ensures { IfOk result (λ _.
        string_bytes out.new ≡ put (string_bytes out.old) (integer_text count)) }
{
    if count == 1 {
        return Ok(());
    }
    push_token(out, "integer-width/*")?;
    push_repeated(out, count, '0')
}

/// The token of a numbering system.
fn push_system(out: &mut String, system: Option<&str>) -> Result<(), AllocError>
    ensures { IfOk result (λ _. string_bytes out.new ≡
        put (string_bytes out.old) (system_text (option_map name_data system.entry))) }
{
    let Some(name) = system else {
        return Ok(());
    };
    if name == "latn" {
        return push_token(out, "latin");
    }
    push_named(out, "numbering-system/", name)
}

/// The token of a power of ten.
#[tactic(auto, using(crate::proofs::Spaced::spaced_more))]
fn push_scale(out: &mut String, power: i16) -> Result<(), AllocError>
    ensures { IfOk result (λ _.
        string_bytes out.new ≡ put (string_bytes out.old) (scale_text power)) }
{
    let above = zeros_above(power);
    let below = zeros_below(power);
    if above == 0 && below == 0 {
        return Ok(());
    }
    push_token(out, "scale/")?;
    push_number(out, RoundingIncrement::MultiplesOf1, above, below, below)
}

impl Skeleton<'_> {
    /// The canonical text: long stems in a fixed order with a space between them, and no stem of a
    /// default. It is read as these settings if a text was read as them.
    // promise: Equal settings have one text, of which they are read.
    // mutations: canonical_without_group_auto, canonical_drops_w
    #[tactic(auto, unfolding(crate::specs::Canonical::canonical_of))]
    pub fn canonical(&self, alloc: Global) -> Result<String, AllocError>
        ensures { IfOk result (λ text.
            string_bytes text ≡ canonical_of (skeleton_data self.now)) }
    {
        let mut out = String::new(alloc);
        push_word(&mut out, notation_word(self.notation))?;
        push_unit(&mut out, self.unit)?;
        push_digits(&mut out, self.precision, self.hides_zeros_of_whole)?;
        push_word(&mut out, mode_word(self.mode))?;
        push_word(&mut out, grouping_word(self.grouping))?;
        push_integer(&mut out, self.integer_digits)?;
        push_system(&mut out, self.system)?;
        push_word(&mut out, width_word(self.width))?;
        push_word(&mut out, sign_word(self.sign, self.is_accounting))?;
        push_scale(&mut out, self.scale)?;
        Ok(out)
    }
}
