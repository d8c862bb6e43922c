//! What is written of numbers: a style, money, percents or a unit.

ghost use Rattle.std.specs.Prelude.{◌≡◌, option_map};
ghost use Rattle.locnum_options.specs.Kinds.{compact_with, currency_given, currency_named, is_alone, is_name, is_share_together, is_together, kind_given};
ghost use Rattle.locnum_options.specs.Kinds.{money_given, money_width, money_with, named_given, notation_given, numbers_with, percents_with, permilles_with};
ghost use Rattle.locnum_options.specs.Kinds.{share_given, sign_of, unit_given, unit_width};

use crate::fault::OptionFault;
use crate::given::Given;
use icu_dimension::options::{CurrencySign, Width};
use icu_dimension_data::CurrencyCode;
use number_formatters::{Kind, UnitName, UnitWidth};
use skeleton_settings::Notation;

/// Whether numbers are shortened, and by which patterns; in full by default.
#[tactic(auto, unfolding(crate::specs::Kinds::notation_given))]
fn notation_given(word: Option<&str>) -> Result<Notation, OptionFault>
    ensures { result ≡ notation_given (option_map (λ t. t.now) word.entry) }
{
    match word {
        None => Ok(Notation::Simple),
        Some("plain") => Ok(Notation::Simple),
        Some("short") => Ok(Notation::CompactShort),
        Some("long") => Ok(Notation::CompactLong),
        Some(_) => Err(OptionFault::Style),
    }
}

/// Numbers alone.
fn numbers_with<'a>(notation: Notation) -> Kind<'a>
    ensures { result ≡ numbers_with notation }
{
    match notation {
        Notation::Simple => Kind::Plain,
        Notation::CompactShort => Kind::Short,
        Notation::CompactLong => Kind::Long,
    }
}

/// Percents: in full in the pattern of percents, else with the unit of percents.
fn percents_with<'a>(notation: Notation) -> Kind<'a>
    ensures { result ≡ percents_with notation }
{
    match notation {
        Notation::Simple => Kind::Percent,
        Notation::CompactShort | Notation::CompactLong => Kind::Unit {
            unit: UnitName::Percent,
            width: UnitWidth::Short,
            notation,
        },
    }
}

/// Permilles: in full in the pattern of percents with the per mille sign, else with the unit of
/// permilles.
fn permilles_with<'a>(notation: Notation) -> Kind<'a>
    ensures { result ≡ permilles_with notation }
{
    match notation {
        Notation::Simple => Kind::Permille,
        Notation::CompactShort | Notation::CompactLong => Kind::Unit {
            unit: UnitName::Permille,
            width: UnitWidth::Short,
            notation,
        },
    }
}

/// What stands for the symbol of a currency; the short one by default.
#[tactic(auto, unfolding(crate::specs::Kinds::money_width))]
fn money_width(word: Option<&str>) -> Result<Width, OptionFault>
    ensures { result ≡ money_width (option_map (λ t. t.now) word.entry) }
{
    let Some(word) = word else {
        return Ok(Width::Short);
    };
    match word {
        "short" => Ok(Width::Short),
        "narrow" => Ok(Width::Narrow),
        "code" => Ok(Width::IsoCode),
        "hidden" => Ok(Width::Hidden),
        _ => Err(OptionFault::Width),
    }
}

/// Which patterns write a unit; the short ones by default.
#[tactic(auto, unfolding(crate::specs::Kinds::unit_width))]
fn unit_width(word: Option<&str>) -> Result<UnitWidth, OptionFault>
    ensures { result ≡ unit_width (option_map (λ t. t.now) word.entry) }
{
    let Some(word) = word else {
        return Ok(UnitWidth::Short);
    };
    match word {
        "long" => Ok(UnitWidth::Long),
        "short" => Ok(UnitWidth::Short),
        "narrow" => Ok(UnitWidth::Narrow),
        _ => Err(OptionFault::Width),
    }
}

/// The code of a currency.
#[tactic(auto, unfolding(crate::specs::Kinds::currency_named))]
fn currency_named(text: &str) -> Result<CurrencyCode, OptionFault>
    ensures { result ≡ currency_named text.now }
{
    match CurrencyCode::try_from_str(text) {
        Ok(code) => Ok(code),
        Err(_) => Err(OptionFault::Currency),
    }
}

/// Which pattern writes a sign.
#[tactic(auto, unfolding(crate::specs::Kinds::sign_of))]
fn sign_of(accounting: bool) -> CurrencySign
    ensures { result ≡ sign_of accounting }
{
    if accounting {
        CurrencySign::Accounting
    } else {
        CurrencySign::Standard
    }
}

/// Compact amounts of money with a symbol, which have no digits of cash.
fn compact_with<'a>(
    code: CurrencyCode,
    width: Width,
    sign: CurrencySign,
    is_cash: bool,
) -> Result<Kind<'a>, OptionFault>
    ensures { result ≡ compact_with code width sign is_cash }
{
    if is_cash {
        return Err(OptionFault::CompactCash);
    }
    Ok(Kind::MoneyShort { code, width, sign })
}

/// Amounts of money with a symbol, in full or compact.
#[tactic(auto, unfolding(crate::specs::Kinds::money_with))]
fn money_with<'a>(
    code: CurrencyCode,
    width: Width,
    notation: Notation,
    given: &Given,
) -> Result<Kind<'a>, OptionFault>
    ensures { result ≡ money_with notation code width given.now }
{
    let sign = sign_of(given.flag("accounting"));
    match notation {
        Notation::Simple => Ok(Kind::Money {
            code,
            width,
            sign,
            is_cash: given.flag("cash"),
        }),
        Notation::CompactShort | Notation::CompactLong => {
            compact_with(code, width, sign, given.flag("cash"))
        }
    }
}

/// Amounts of money with the symbol of the currency.
#[tactic(auto, unfolding(crate::specs::Kinds::money_given))]
fn money_given<'a>(text: &str, notation: Notation, given: &Given) -> Result<Kind<'a>, OptionFault>
    ensures { result ≡ money_given text.now notation given.now }
{
    let code = currency_named(text)?;
    let width = money_width(given.text("width"))?;
    money_with(code, width, notation, given)
}

/// Whether the names of currencies are asked for.
#[tactic(auto, unfolding(crate::specs::Kinds::is_name))]
fn is_name(word: Option<&str>) -> bool
    ensures { result ≡ is_name (option_map (λ t. t.now) word.entry) }
{
    match word {
        None => false,
        Some("name") => true,
        Some(_) => false,
    }
}

/// Amounts of money with the name of the currency, for which there is no accounting pattern.
#[tactic(auto, unfolding(crate::specs::Kinds::named_given))]
fn named_given<'a>(text: &str, notation: Notation, given: &Given) -> Result<Kind<'a>, OptionFault>
    ensures { result ≡ named_given text.now notation given.now }
{
    let code = currency_named(text)?;
    if given.flag("accounting") {
        return Err(OptionFault::Accounting);
    }
    let is_cash = given.flag("cash");
    if is_cash && !matches!(notation, Notation::Simple) {
        return Err(OptionFault::CompactCash);
    }
    Ok(Kind::MoneyNamed {
        code,
        is_cash,
        notation,
    })
}

/// Amounts of a currency, with its name or its symbol.
#[tactic(auto, unfolding(crate::specs::Kinds::currency_given))]
fn currency_given<'a>(
    text: &str,
    notation: Notation,
    given: &Given,
) -> Result<Kind<'a>, OptionFault>
    ensures { result ≡ currency_given text.now notation given.now }
{
    if is_name(given.text("width")) {
        named_given(text, notation, given)
    } else {
        money_given(text, notation, given)
    }
}

/// Numbers with a unit.
#[tactic(auto, unfolding(crate::specs::Kinds::unit_given))]
fn unit_given<'a>(name: &'a str, notation: Notation, given: &Given) -> Result<Kind<'a>, OptionFault>
    ensures { result ≡ unit_given name.entry notation given.now }
{
    let width = unit_width(given.text("width"))?;
    let unit = UnitName::Named(name);
    Ok(Kind::Unit {
        unit,
        width,
        notation,
    })
}

/// Whether percents or permilles are asked for beside money, units, or each other.
#[tactic(auto, unfolding(crate::specs::Kinds::is_share_together))]
fn is_share_together(given: &Given) -> bool
    ensures { result ≡ is_share_together given.now }
{
    let other = given.flag("currency") || given.flag("unit");
    (given.flag("percent") && (given.flag("permille") || other))
        || (given.flag("permille") && other)
}

/// Whether more than one of money, percents, permilles and units is asked for.
#[tactic(auto, unfolding(crate::specs::Kinds::is_together))]
fn is_together(given: &Given) -> bool
    ensures { result ≡ is_together given.now }
{
    (given.flag("currency") && given.flag("unit")) || is_share_together(given)
}

/// Whether an option of money stands without a currency, or a width without a currency or a unit.
#[tactic(auto, unfolding(crate::specs::Kinds::is_alone))]
fn is_alone(given: &Given) -> bool
    ensures { result ≡ is_alone given.now }
{
    !given.flag("currency")
        && (given.flag("accounting")
            || given.flag("cash")
            || (given.flag("width") && !given.flag("unit")))
}

/// Numbers in full or compact, percents or permilles.
#[tactic(auto, unfolding(crate::specs::Kinds::share_given))]
fn share_given<'a>(notation: Notation, given: &Given) -> Kind<'a>
    ensures { result ≡ share_given notation given.now }
{
    if given.flag("percent") {
        percents_with(notation)
    } else if given.flag("permille") {
        permilles_with(notation)
    } else {
        numbers_with(notation)
    }
}

/// The kind that is asked for.
#[tactic(auto, unfolding(crate::specs::Kinds::kind_given))]
pub(crate) fn kind_given<'a>(given: &Given<'a>) -> Result<Kind<'a>, OptionFault>
    ensures { result ≡ kind_given given.now }
{
    if is_together(given) {
        return Err(OptionFault::Together);
    }
    if is_alone(given) {
        return Err(OptionFault::Alone);
    }
    let notation = notation_given(given.text("style"))?;
    if let Some(code) = given.text("currency") {
        return currency_given(code, notation, given);
    }
    if let Some(name) = given.text("unit") {
        return unit_given(name, notation, given);
    }
    Ok(share_given(notation, given))
}
