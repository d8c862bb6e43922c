//! The form that a number skeleton asks for.

ghost use Rattle.std.specs.Prelude.{◌≡◌, option_map};
ghost use Rattle.number_formatters.specs.Skeleton.{code_set, default_precision, grouping_set, is_full_name, is_simple, kind_set, money_set, money_sign};
ghost use Rattle.number_formatters.specs.Skeleton.{money_with, named_money, numbers_set, patterns_set, percent_set, permille_set, precision_set, set_grouping};
ghost use Rattle.number_formatters.specs.Skeleton.{share_set, symbol_set, system_set, unit_set};

use crate::settings::{FormGrouping, Kind, Settings, UnitName, UnitWidth};
use icu_decimal_options::options::GroupingStrategy;
use icu_dimension::options::{CurrencySign, Width};
use icu_dimension_data::CurrencyCode;
use icu_provider::{DataLocale, NumberingSystem};
use skeleton_settings::{CurrencyLetters, Grouping, Notation, NumberUnit, Precision, Skeleton};
use std::str;
use thiserror::Error;

/// What a skeleton asks for that no form has.
#[derive(Clone, Copy, Debug, PartialEq, Eq, Error)]
pub enum Unsupported {
    /// A name that no numbering system can have. No text sets it.
    #[error("numbering-system")]
    System,
    /// Letters that no currency can have. No text sets them.
    #[error("currency")]
    Currency,
}

/// When separators are written, where that is set.
fn set_grouping(grouping: Grouping) -> FormGrouping
    ensures { result ≡ set_grouping grouping }
{
    match grouping {
        Grouping::Off => FormGrouping::Strategy(GroupingStrategy::Never),
        Grouping::Min2 => FormGrouping::Strategy(GroupingStrategy::Min2),
        Grouping::Auto => FormGrouping::Strategy(GroupingStrategy::Auto),
        Grouping::OnAligned => FormGrouping::OnAligned,
        Grouping::Thousands => FormGrouping::Thousands,
    }
}

/// When separators are written.
#[tactic(auto, unfolding(crate::specs::Skeleton::grouping_set))]
fn grouping_set(grouping: Option<Grouping>) -> Option<FormGrouping>
    ensures { result ≡ grouping_set grouping }
{
    match grouping {
        None => None,
        Some(grouping) => Some(set_grouping(grouping)),
    }
}

/// The numbering system.
#[tactic(auto, unfolding(crate::specs::Skeleton::system_set))]
fn system_set(name: Option<&str>) -> Result<Option<NumberingSystem>, Unsupported>
    ensures { result ≡ system_set name.entry }
{
    let Some(name) = name else {
        return Ok(None);
    };
    match NumberingSystem::try_from_str(name) {
        Ok(system) => Ok(Some(system)),
        Err(_) => Err(Unsupported::System),
    }
}

/// The currency of these letters.
#[tactic(auto, unfolding(crate::specs::Skeleton::code_set))]
fn code_set(letters: CurrencyLetters) -> Result<CurrencyCode, Unsupported>
    ensures { result ≡ code_set letters }
{
    let bytes = [letters.first, letters.second, letters.third];
    let Ok(text) = str::from_utf8(&bytes) else {
        return Err(Unsupported::Currency);
    };
    match CurrencyCode::try_from_str(text) {
        Ok(code) => Ok(code),
        Err(_) => Err(Unsupported::Currency),
    }
}

/// Which pattern writes a sign.
fn money_sign(is_accounting: bool) -> CurrencySign
    ensures { result ≡ money_sign is_accounting }
{
    if is_accounting {
        CurrencySign::Accounting
    } else {
        CurrencySign::Standard
    }
}

/// Amounts of money with the name of the currency.
fn named_money<'a>(code: CurrencyCode, notation: Notation) -> Kind<'a>
    ensures { result ≡ named_money code notation }
{
    Kind::MoneyNamed {
        code,
        is_cash: false,
        notation,
    }
}

/// What stands for the symbol of a currency; nothing where its name is written.
#[tactic(auto, unfolding(crate::specs::Skeleton::symbol_set))]
fn symbol_set(width: skeleton_settings::UnitWidth) -> Option<Width>
    ensures { result ≡ symbol_set width }
{
    match width {
        skeleton_settings::UnitWidth::Narrow => Some(Width::Narrow),
        skeleton_settings::UnitWidth::Short => Some(Width::Short),
        skeleton_settings::UnitWidth::FullName => None,
        skeleton_settings::UnitWidth::IsoCode => Some(Width::IsoCode),
        skeleton_settings::UnitWidth::Hidden => Some(Width::Hidden),
    }
}

/// Amounts of money with a symbol.
fn money_with<'a>(
    width: Width,
    sign: CurrencySign,
    notation: Notation,
    code: CurrencyCode,
) -> Kind<'a>
    ensures { result ≡ money_with width sign notation code }
{
    match notation {
        Notation::Simple => Kind::Money {
            code,
            width,
            sign,
            is_cash: false,
        },
        Notation::CompactShort | Notation::CompactLong => Kind::MoneyShort { code, width, sign },
    }
}

/// Amounts of money.
#[tactic(auto, unfolding(crate::specs::Skeleton::money_set))]
fn money_set<'a>(skeleton: &Skeleton<'a>, code: CurrencyCode) -> Kind<'a>
    ensures { result ≡ money_set skeleton.now code }
{
    match symbol_set(skeleton.width) {
        Some(width) => money_with(
            width,
            money_sign(skeleton.is_accounting),
            skeleton.notation,
            code,
        ),
        None => named_money(code, skeleton.notation),
    }
}

/// Which patterns write a unit; none where it is hidden.
#[tactic(auto, unfolding(crate::specs::Skeleton::patterns_set))]
fn patterns_set(width: skeleton_settings::UnitWidth) -> Option<UnitWidth>
    ensures { result ≡ patterns_set width }
{
    match width {
        skeleton_settings::UnitWidth::Narrow => Some(UnitWidth::Narrow),
        skeleton_settings::UnitWidth::Short => Some(UnitWidth::Short),
        skeleton_settings::UnitWidth::FullName => Some(UnitWidth::Long),
        skeleton_settings::UnitWidth::IsoCode => Some(UnitWidth::Short),
        skeleton_settings::UnitWidth::Hidden => None,
    }
}

/// Numbers alone.
fn numbers_set<'a>(notation: Notation) -> Kind<'a>
    ensures { result ≡ numbers_set notation }
{
    match notation {
        Notation::Simple => Kind::Plain,
        Notation::CompactShort => Kind::Short,
        Notation::CompactLong => Kind::Long,
    }
}

/// Numbers with a unit.
#[tactic(auto, unfolding(crate::specs::Skeleton::unit_set))]
fn unit_set<'a>(skeleton: &Skeleton<'a>, unit: UnitName<'a>) -> Kind<'a>
    ensures { result ≡ unit_set skeleton.now unit.entry }
{
    let notation = skeleton.notation;
    match patterns_set(skeleton.width) {
        Some(width) => Kind::Unit {
            unit,
            width,
            notation,
        },
        None => numbers_set(notation),
    }
}

/// Whether a width asks for a name in full.
fn is_full_name(width: skeleton_settings::UnitWidth) -> bool
    ensures { result ≡ is_full_name width }
{
    matches!(width, skeleton_settings::UnitWidth::FullName)
}

/// Percents or permilles as a unit, which is never hidden.
#[tactic(auto, unfolding(crate::specs::Skeleton::share_set))]
fn share_set<'a>(skeleton: &Skeleton<'a>, unit: UnitName<'a>) -> Kind<'a>
    ensures { result ≡ share_set skeleton.now unit.entry }
{
    Kind::Unit {
        unit,
        width: patterns_set(skeleton.width).unwrap_or(UnitWidth::Short),
        notation: skeleton.notation,
    }
}

/// Whether numbers are in full.
fn is_simple(notation: Notation) -> bool
    ensures { result ≡ is_simple notation }
{
    matches!(notation, Notation::Simple)
}

/// Percents: in full in the locale's pattern, else as a unit.
#[tactic(auto, unfolding(crate::specs::Skeleton::percent_set))]
fn percent_set<'a>(skeleton: &Skeleton<'a>) -> Kind<'a>
    ensures { result ≡ percent_set skeleton.now }
{
    if is_simple(skeleton.notation) && !is_full_name(skeleton.width) {
        Kind::Percent
    } else {
        share_set(skeleton, UnitName::Percent)
    }
}

/// Permilles: in full in the locale's pattern of percents with its per mille sign, else as a unit.
#[tactic(auto, unfolding(crate::specs::Skeleton::permille_set))]
fn permille_set<'a>(skeleton: &Skeleton<'a>) -> Kind<'a>
    ensures { result ≡ permille_set skeleton.now }
{
    if is_simple(skeleton.notation) && !is_full_name(skeleton.width) {
        Kind::Permille
    } else {
        share_set(skeleton, UnitName::Permille)
    }
}

/// What is written of numbers.
#[tactic(auto, unfolding(crate::specs::Skeleton::kind_set))]
fn kind_set<'a>(skeleton: &Skeleton<'a>) -> Result<Kind<'a>, Unsupported>
    ensures { result ≡ kind_set skeleton.now skeleton.now.unit }
{
    match skeleton.unit {
        NumberUnit::None => Ok(numbers_set(skeleton.notation)),
        NumberUnit::Percent => Ok(percent_set(skeleton)),
        NumberUnit::Permille => Ok(permille_set(skeleton)),
        NumberUnit::Currency(letters) => match code_set(letters) {
            Ok(code) => Ok(money_set(skeleton, code)),
            Err(error) => Err(error),
        },
        NumberUnit::Named(name) => Ok(unit_set(skeleton, UnitName::Named(name))),
    }
}

/// How fine numbers are in full, where nothing is set.
#[tactic(auto, unfolding(crate::specs::Skeleton::default_precision))]
fn default_precision(unit: &NumberUnit<'_>) -> Option<Precision>
    ensures { result ≡ default_precision unit.now }
{
    match unit {
        NumberUnit::Currency(_) => None,
        NumberUnit::None | NumberUnit::Percent | NumberUnit::Permille | NumberUnit::Named(_) => {
            Some(Precision::Fraction {
                least: 0,
                most: Some(6),
            })
        }
    }
}

/// How fine numbers are.
#[tactic(auto, unfolding(crate::specs::Skeleton::precision_set))]
fn precision_set(skeleton: &Skeleton<'_>) -> Option<Precision>
    ensures { result ≡ precision_set skeleton.now skeleton.now.notation skeleton.now.precision }
{
    match (skeleton.precision, skeleton.notation) {
        (Some(precision), _) => Some(precision),
        (None, Notation::Simple) => default_precision(&skeleton.unit),
        (None, Notation::CompactShort | Notation::CompactLong) => None,
    }
}

impl<'a> Settings<'a> {
    ghost use Rattle.std.specs.Prelude.{◌≡◌};
    ghost use Rattle.number_formatters.specs.Skeleton.{settings_of};

    /// What a number skeleton asks for in a locale (this project's own).
    ///
    /// Numbers in full have at most six fraction digits where the skeleton sets no precision, and
    /// amounts of money the digits of their currency. What no form has is reported, of the numbering
    /// system first; no text of a skeleton asks for it.
    // promise: A skeleton determines the settings, or what no form has.
    // mutations: percent_of_a_skeleton_scaled, permille_of_a_skeleton_as_percent
    #[tactic(auto, unfolding(crate::specs::Skeleton::settings_of))]
    pub fn of_skeleton(
        locale: DataLocale,
        skeleton: &Skeleton<'a>,
    ) -> Result<Settings<'a>, Unsupported>
        ensures { result ≡ settings_of locale skeleton.now }
    {
        let system = system_set(skeleton.system)?;
        let kind = match kind_set(skeleton) {
            Ok(kind) => kind,
            Err(error) => return Err(error),
        };
        Ok(Settings {
            locale,
            system,
            grouping: grouping_set(skeleton.grouping),
            precision: precision_set(skeleton),
            mode: skeleton.mode,
            hides_zeros_of_whole: skeleton.hides_zeros_of_whole,
            integer_digits: skeleton.integer_digits,
            scale: skeleton.scale,
            sign: skeleton.sign,
            kind,
        })
    }
}
