//! Values of options, and what holds where an option isn't given.

ghost use Rattle.std.specs.Prelude.{◌≡◌, option_map};
ghost use Rattle.locnum_options.specs.Words.{byte_named, csv_given, delimiter_given, field_end_given, grouping_given, is_csv_mark, plain_given, refusals_given, sign_given, system_given};

use crate::fault::OptionFault;
use crate::given::Given;
use fixed_decimal::SignDisplay;
use icu_decimal_options::options::GroupingStrategy;
use icu_provider::NumberingSystem;
use locnum_lines::{Delimiter, Refusals};
use number_formatters::FormGrouping;

/// The numbering system; none by default.
#[tactic(auto, unfolding(crate::specs::Words::system_given))]
pub(crate) fn system_given(text: Option<&str>) -> Result<Option<NumberingSystem>, OptionFault>
    ensures { result ≡ system_given (option_map (λ t. t.now) text.entry) }
{
    let Some(text) = text else {
        return Ok(None);
    };
    match NumberingSystem::try_from_str(text) {
        Ok(system) => Ok(Some(system)),
        Err(_) => Err(OptionFault::System),
    }
}

/// When separators are written, by a strategy; none by default.
#[tactic(auto, unfolding(crate::specs::Words::grouping_given))]
pub(crate) fn grouping_given(word: Option<&str>) -> Result<Option<FormGrouping>, OptionFault>
    ensures { result ≡ grouping_given (option_map (λ t. t.now) word.entry) }
{
    let Some(word) = word else {
        return Ok(None);
    };
    match word {
        "auto" => Ok(Some(FormGrouping::Strategy(GroupingStrategy::Auto))),
        "never" => Ok(Some(FormGrouping::Strategy(GroupingStrategy::Never))),
        "always" => Ok(Some(FormGrouping::Strategy(GroupingStrategy::Always))),
        "min2" => Ok(Some(FormGrouping::Strategy(GroupingStrategy::Min2))),
        _ => Err(OptionFault::Grouping),
    }
}

/// The signs that are written; `auto` by default.
#[tactic(auto, unfolding(crate::specs::Words::sign_given))]
pub(crate) fn sign_given(word: Option<&str>) -> Result<SignDisplay, OptionFault>
    ensures { result ≡ sign_given (option_map (λ t. t.now) word.entry) }
{
    let Some(word) = word else {
        return Ok(SignDisplay::Auto);
    };
    match word {
        "auto" => Ok(SignDisplay::Auto),
        "always" => Ok(SignDisplay::Always),
        "never" => Ok(SignDisplay::Never),
        "except-zero" => Ok(SignDisplay::ExceptZero),
        "negative" => Ok(SignDisplay::Negative),
        _ => Err(OptionFault::Sign),
    }
}

/// The byte of a text: a tab of `tab` and `\\t`, or the byte that it is.
#[tactic(auto, unfolding(crate::specs::Words::byte_named))]
fn byte_named(text: &str) -> Result<u8, OptionFault>
    ensures { result ≡ byte_named text.now }
{
    if text == "tab" || text == "\\t" {
        return Ok(b'\t');
    }
    match text.as_bytes() {
        [byte] => Ok(*byte),
        _ => Err(OptionFault::Delimiter),
    }
}

/// The byte between fields; none by default.
#[tactic(auto, unfolding(crate::specs::Words::delimiter_given))]
fn delimiter_given(text: Option<&str>) -> Result<Option<u8>, OptionFault>
    ensures { result ≡ delimiter_given (option_map (λ t. t.now) text.entry) }
{
    let Some(text) = text else {
        return Ok(None);
    };
    Ok(Some(byte_named(text)?))
}

/// Whether a byte is a quote, a line feed or a carriage return.
fn is_csv_mark(byte: u8) -> bool
    ensures { result ≡ is_csv_mark byte }
{
    byte == b'"' || byte == b'\n' || byte == b'\r'
}

/// What ends a field of CSV, by the byte between fields; a comma by default.
#[tactic(auto, unfolding(crate::specs::Words::csv_given))]
fn csv_given(byte: Option<u8>) -> Result<Delimiter, OptionFault>
    ensures { result ≡ csv_given byte }
{
    let Some(byte) = byte else {
        return Ok(Delimiter::Csv(b','));
    };
    if is_csv_mark(byte) {
        return Err(OptionFault::CsvDelimiter);
    }
    Ok(Delimiter::Csv(byte))
}

/// What ends a field otherwise; a blank by default.
#[tactic(auto, unfolding(crate::specs::Words::plain_given))]
fn plain_given(byte: Option<u8>) -> Delimiter
    ensures { result ≡ plain_given byte }
{
    match byte {
        None => Delimiter::Blanks,
        Some(byte) => Delimiter::Byte(byte),
    }
}

/// What ends a field; CSV has lines that end in a line feed.
#[tactic(auto, unfolding(crate::specs::Words::field_end_given))]
pub(crate) fn field_end_given(given: &Given) -> Result<Delimiter, OptionFault>
    ensures { result ≡ field_end_given given.now }
{
    let byte = delimiter_given(given.text("delimiter"))?;
    if !given.flag("csv") {
        return Ok(plain_given(byte));
    }
    if given.flag("zero-terminated") {
        return Err(OptionFault::CsvZero);
    }
    csv_given(byte)
}

/// What becomes of texts that are rejected; `abort` by default.
#[tactic(auto, unfolding(crate::specs::Words::refusals_given))]
pub(crate) fn refusals_given(word: Option<&str>) -> Result<Refusals, OptionFault>
    ensures { result ≡ refusals_given (option_map (λ t. t.now) word.entry) }
{
    let Some(word) = word else {
        return Ok(Refusals::Abort);
    };
    match word {
        "abort" => Ok(Refusals::Abort),
        "fail" => Ok(Refusals::Fail),
        "warn" => Ok(Refusals::Warn),
        "ignore" => Ok(Refusals::Ignore),
        _ => Err(OptionFault::Invalid),
    }
}
