//! What options ask for.

use crate::CallResult;
use crate::bytes::{push_behind, text_if};
use crate::faults::no_options;
use crate::words::{Pair, environment_of, given};
use fixed_decimal::{SignedRoundingMode, UnsignedRoundingMode};
use icu_decimal::options::GroupingStrategy;
use locnum_lines::{Delimiter, FieldRange, LineSettings, Padding, Source};
use locnum_options::{Given, OptionFault, Options, parse_options};
use number_formatters::{FormGrouping, Kind, Settings};
use skeleton_settings::{Notation, Precision};
use std::alloc::{AllocError, Global};

/// What is said of numbers in a notation.
fn notation_text(notation: Notation) -> &'static str {
    match notation {
        Notation::Simple => "",
        Notation::CompactShort => " compact",
        Notation::CompactLong => " compact long",
    }
}

/// Appends what is written of a number.
fn push_kind(alloc: Global, kind: &Kind<'_>, text: &mut String) -> Result<(), AllocError> {
    match kind {
        Kind::Plain => text.push_str("plain"),
        Kind::Short => text.push_str("short"),
        Kind::Long => text.push_str("long"),
        Kind::Percent => text.push_str("percent"),
        Kind::Permille => text.push_str("permille"),
        Kind::Money {
            code,
            width,
            sign,
            is_cash,
        } => {
            text.push_str("money ")?;
            text.push_str(code.as_str())?;
            text.push_str(format!(in alloc; " {width:?} {sign:?}")?.as_str())?;
            text.push_str(text_if(*is_cash, " cash"))
        }
        Kind::MoneyNamed {
            code,
            is_cash,
            notation,
        } => {
            text.push_str("money named ")?;
            text.push_str(code.as_str())?;
            text.push_str(text_if(*is_cash, " cash"))?;
            text.push_str(notation_text(*notation))
        }
        Kind::MoneyShort { code, width, sign } => {
            text.push_str("money short ")?;
            text.push_str(code.as_str())?;
            text.push_str(format!(in alloc; " {width:?} {sign:?}")?.as_str())
        }
        Kind::Unit {
            unit,
            width,
            notation,
        } => {
            let name = unit.text();
            text.push_str(format!(in alloc; "unit {name} {width:?}")?.as_str())?;
            text.push_str(notation_text(*notation))
        }
    }
}

/// Appends the strategy of groups, if one is asked for.
pub(crate) fn push_grouping(
    alloc: Global,
    grouping: Option<GroupingStrategy>,
    text: &mut String,
) -> Result<(), AllocError> {
    match grouping {
        Some(grouping) => text.push_str(format!(in alloc; " grouping {grouping:?}")?.as_str()),
        None => Ok(()),
    }
}

/// Appends when separators are written, if that is asked for.
fn push_form_grouping(
    alloc: Global,
    grouping: Option<FormGrouping>,
    text: &mut String,
) -> Result<(), AllocError> {
    match grouping {
        Some(FormGrouping::Strategy(strategy)) => push_grouping(alloc, Some(strategy), text),
        Some(grouping) => text.push_str(format!(in alloc; " grouping {grouping:?}")?.as_str()),
        None => Ok(()),
    }
}

/// Counts of digits, the second of which there may be.
fn counts_text(
    alloc: Global,
    name: &str,
    least: u16,
    most: Option<u16>,
) -> Result<String, AllocError> {
    match most {
        Some(most) => format!(in alloc; " {name} {least}-{most}"),
        None => format!(in alloc; " {name} {least}-"),
    }
}

/// A precision as rows spell it: the counts of digits, or an increment as a name, the power of ten of
/// its last digit and the least fraction digits.
fn precision_text(alloc: Global, precision: Precision) -> Result<String, AllocError> {
    match precision {
        Precision::Fraction { least, most } => counts_text(alloc, "fraction", least, most),
        Precision::Significant { least, most } => counts_text(alloc, "significant", least, most),
        Precision::Increment {
            increment,
            power,
            least,
        } => format!(in alloc; " increment {increment:?} {power} least {least}"),
        Precision::Both {
            least,
            most,
            few,
            many,
            priority,
            keeps_least,
        } => {
            let mut text = counts_text(alloc, "fraction", least, most)?;
            text.push_str(format!(in alloc; " beside {few}-{many} {priority:?}")?.as_str())?;
            text.push_str(text_if(keeps_least, " keeps least"))?;
            Ok(text)
        }
        Precision::Currency { is_cash } => {
            String::from_str(
                alloc,
                if is_cash {
                    " digits of cash"
                } else {
                    " digits of money"
                },
            )
        }
    }
}

/// Appends how fine numbers are, if that is asked for.
fn push_precision(
    alloc: Global,
    precision: Option<Precision>,
    text: &mut String,
) -> Result<(), AllocError> {
    match precision {
        Some(precision) => text.push_str(precision_text(alloc, precision)?.as_str()),
        None => Ok(()),
    }
}

/// Appends the rounding mode, if it isn't half even.
fn push_mode(alloc: Global, mode: SignedRoundingMode, text: &mut String) -> Result<(), AllocError> {
    match mode {
        SignedRoundingMode::Unsigned(UnsignedRoundingMode::HalfEven) => Ok(()),
        SignedRoundingMode::Unsigned(mode) => {
            text.push_str(format!(in alloc; " round {mode:?}")?.as_str())
        }
        mode => text.push_str(format!(in alloc; " round {mode:?}")?.as_str()),
    }
}

/// Appends whether whole numbers have no fraction digits, how many digits stand before them at least,
/// and the power of ten by which numbers are multiplied, as far as each isn't the default.
fn push_digits(
    alloc: Global,
    settings: &Settings<'_>,
    text: &mut String,
) -> Result<(), AllocError> {
    text.push_str(text_if(settings.hides_zeros_of_whole, " whole"))?;
    if settings.integer_digits != 1 {
        let integer = format!(in alloc; " integer {}", settings.integer_digits)?;
        text.push_str(integer.as_str())?;
    }
    if settings.scale != 0 {
        let scale = format!(in alloc; " scale {}", settings.scale)?;
        text.push_str(scale.as_str())?;
    }
    Ok(())
}

/// Appends the form of numbers: the locale, the numbering system, the groups, how fine numbers are,
/// the rounding mode, the digits, the scale, the signs and what is written, as far as each is asked for.
fn push_form(alloc: Global, settings: &Settings<'_>, text: &mut String) -> Result<(), AllocError> {
    text.push_str("locale ")?;
    text.push_str(settings.locale.as_str())?;
    let system = match &settings.system {
        Some(system) => system.as_str(),
        None => "",
    };
    push_behind(" system ", system.as_bytes(), text)?;
    push_form_grouping(alloc, settings.grouping, text)?;
    push_precision(alloc, settings.precision, text)?;
    push_mode(alloc, settings.mode, text)?;
    push_digits(alloc, settings, text)?;
    text.push_str(format!(in alloc; " sign {:?} ", settings.sign)?.as_str())?;
    push_kind(alloc, &settings.kind, text)
}

/// Appends what ends a field.
fn push_delimiter(delimiter: Delimiter, text: &mut String) -> Result<(), AllocError> {
    match delimiter {
        Delimiter::Blanks => text.push_str("blanks"),
        Delimiter::Byte(byte) => {
            text.push_str("byte ")?;
            text.push(char::from(byte))
        }
        Delimiter::Csv(byte) => {
            text.push_str("csv ")?;
            text.push(char::from(byte))
        }
    }
}

/// Appends the fields by number.
fn push_ranges(alloc: Global, ranges: &[FieldRange], text: &mut String) -> Result<(), AllocError> {
    for range in ranges {
        let range = format!(in alloc; " field {}-{}", range.first, range.last)?;
        text.push_str(range.as_str())?;
    }
    Ok(())
}

/// Appends the fields by name.
fn push_names(names: &[String], text: &mut String) -> Result<(), AllocError> {
    for name in names {
        text.push_str(" name '")?;
        text.push_str(name.as_str())?;
        text.push('\'')?;
    }
    Ok(())
}

/// Appends how many lines the header has, if there is one.
fn push_header(alloc: Global, count: u64, text: &mut String) -> Result<(), AllocError> {
    match count {
        0 => Ok(()),
        _ => text.push_str(format!(in alloc; " header {count}")?.as_str()),
    }
}

/// Appends the padding, if there is one.
fn push_padding(
    alloc: Global,
    padding: Option<Padding>,
    text: &mut String,
) -> Result<(), AllocError> {
    match padding {
        Some(padding) => {
            let columns = padding.columns;
            let padding = format!(in alloc; " padding {columns} {:?}", padding.alignment)?;
            text.push_str(padding.as_str())
        }
        None => Ok(()),
    }
}

/// Appends the source, if it is an argument.
fn push_source(alloc: Global, source: Source, text: &mut String) -> Result<(), AllocError> {
    match source {
        Source::Word(number) => text.push_str(format!(in alloc; " word {number}")?.as_str()),
        _ => Ok(()),
    }
}

/// Appends how lines are cut: the delimiter, the fields, the header, the byte that ends a line, what
/// becomes of rejected texts, the padding and the source, as far as each isn't nothing.
fn push_lines(alloc: Global, lines: &LineSettings, text: &mut String) -> Result<(), AllocError> {
    push_delimiter(lines.delimiter, text)?;
    push_ranges(alloc, &lines.fields, text)?;
    push_names(&lines.names, text)?;
    push_header(alloc, lines.header, text)?;
    let end = format!(in alloc; " end {:02X} {:?}", lines.end, lines.refusals)?;
    text.push_str(end.as_str())?;
    push_padding(alloc, lines.padding, text)?;
    push_source(alloc, lines.source, text)
}

/// Appends all that options ask for.
fn push_options(alloc: Global, options: &Options<'_>, text: &mut String) -> Result<(), AllocError> {
    push_form(alloc, &options.settings, text)?;
    text.push_str(" | ")?;
    push_lines(alloc, &options.lines, text)?;
    text.push_str(format!(in alloc; " | explain {:?}", options.explain)?.as_str())
}

/// All that options ask for.
fn spelled(alloc: Global, options: &Options<'_>) -> Result<String, AllocError> {
    let mut text = String::new(alloc);
    push_options(alloc, options, &mut text)?;
    Ok(text)
}

/// What `parse_options` answers.
pub(crate) fn parsed<'a>(
    alloc: Global,
    variables: &'a [String],
    options: &'a [Pair<'a>],
) -> CallResult {
    let Some(environment) = environment_of(variables) else {
        return Ok(None);
    };
    let given = Given {
        options,
        environment,
    };
    match parse_options(alloc, &given) {
        Ok(options) => Ok(Some(spelled(alloc, &options)?)),
        Err(fault) => no_options(alloc, fault),
    }
}

/// The fraction digits of a text `LEAST-MOST`, whichever is greater.
fn digits_of(text: &str) -> Option<Precision> {
    let (least, most) = text.split_once('-')?;
    let least = least.parse().ok()?;
    let most = most.parse().ok()?;
    Some(Precision::Fraction {
        least,
        most: Some(most),
    })
}

/// Sets what no option of `locnum` asks for: `--digits LEAST-MOST`, `--name NAME` whether there is a
/// header or not, and `--word NUMBER`, the argument that is the source. Whether they are so.
fn settle(
    alloc: Global,
    settings: &mut Options<'_>,
    options: &[Pair<'_>],
) -> Result<bool, AllocError> {
    for (option, text) in options {
        match *option {
            "digits" => settings.settings.precision = digits_of(text),
            "name" => settings.lines.names.push(String::from_str(alloc, text)?)?,
            "word" => match text.parse() {
                Ok(number) => settings.lines.source = Source::Word(number),
                Err(_) => return Ok(false),
            },
            _ => {}
        }
    }
    Ok(true)
}

/// What these options ask for, and those that are of rows alone; `None` if they are rejected.
pub(crate) fn settings_of<'a>(
    alloc: Global,
    options: &'a [Pair<'a>],
) -> Result<Option<Options<'a>>, AllocError> {
    match parse_options(alloc, &given(options)) {
        Ok(mut settings) => {
            let is_settled = settle(alloc, &mut settings, options)?;
            Ok(if is_settled { Some(settings) } else { None })
        }
        Err(OptionFault::OutOfMemory) => Err(AllocError),
        Err(_) => Ok(None),
    }
}
