//! Frames of rows around a number, by callers that know no more of a formatter.

ghost use Rattle.std.specs.Prelude.{◌≡◌, ◌++◌, None};
ghost use Rattle.icu_plurals.specs.Elements.{selected};
ghost use Rattle.writeable.specs.Events.{text_events, without_parts};
ghost use Rattle.icu_pattern.specs.Patterns.{interpolated};
ghost use Rattle.icu_plurals.specs.Rules.{category_of};

use super::spelled::{said, sink_of, text, with_text, written};
use crate::CallResult;
use fixed_decimal::UnsignedDecimal;
use icu_decimal::error::FormatError;
use icu_decimal_interface::{
    AbstractFormatter, Characters, Frame, PairFrame, ShownNumber, write_pair_into,
};
use icu_pattern::{Pattern, SinglePlaceholder};
use icu_plurals::{PluralCategory, PluralElements, PluralRules, RulesError};
use std::alloc::{AllocError, Global};
use writeable::{EventWriter, WriteFault, Writeable};

/// Texts around a number.
#[derive(Drop)]
struct Between<'a> {
    before: &'a str,
    after: &'a str,
}

impl Frame for Between<'_> {
    ghost use Rattle.std.proofs.Common.{inl};
    ghost use Rattle.icu_decimal_interface.specs.OnceLaws.{alone_stands, around_stands};

    ghost framed = { λ f operands es.
        text_events f.before.now ++ (es ++ text_events f.after.now) };

    ghost leaves_out = { λ f operands. ⊥ };

    ghost once = { λ f operands. inl
        (around_stands (text_events f.before.now) (text_events f.after.now) alone_stands) };

    fn write_framed<N: ShownNumber, K: EventWriter>(
        &self,
        number: &N,
        out: &mut K,
    ) -> Result<(), WriteFault> {
        out.text(self.before)?;
        number.write_events(out)?;
        out.text(self.after)
    }
}

const BRACKETS: Between<'static> = Between {
    before: "[",
    after: "]",
};

/// A text between two numbers.
#[derive(Drop)]
struct Joined<'a> {
    by: &'a str,
}

impl PairFrame for Joined<'_> {
    ghost framed = { λ f first es second fs. es ++ (text_events f.by.now ++ fs) };

    fn write_pair<M: ShownNumber, N: ShownNumber, K: EventWriter>(
        &self,
        first: &M,
        second: &N,
        out: &mut K,
    ) -> Result<(), WriteFault> {
        first.write_events(out)?;
        out.text(self.by)?;
        second.write_events(out)
    }
}

const DASH: Joined<'static> = Joined { by: "-" };

/// The text of two numbers with a dash between them, and why it can't be written.
pub(crate) fn write_pair<F: AbstractFormatter>(
    alloc: Global,
    formatter: &F,
    first: &UnsignedDecimal,
    second: &UnsignedDecimal,
) -> CallResult {
    let mut out = String::new(alloc);
    match write_pair_into(alloc, formatter, first, formatter, second, &DASH, &mut out) {
        Ok(()) => Ok(Some(out)),
        Err(FormatError::Overflow) => said(alloc, "Overflow"),
        Err(_) => Err(AllocError),
    }
}

/// What a number in brackets leaves in a sink.
pub(crate) fn write_framed<F: AbstractFormatter>(
    alloc: Global,
    formatter: &F,
    number: &UnsignedDecimal,
    limit: Option<usize>,
) -> CallResult {
    let mut sink = sink_of(alloc, limit);
    let returned = formatter.write_framed(alloc, number, &BRACKETS, &mut sink);
    written(alloc, &sink, returned)
}

/// The text of a number in brackets.
pub(crate) fn framed_to_string<F: AbstractFormatter>(
    alloc: Global,
    formatter: &F,
    number: &UnsignedDecimal,
) -> CallResult {
    text(alloc, formatter.framed_to_string(alloc, number, &BRACKETS))
}

/// A pattern that a number's operands pick.
#[derive(Drop)]
struct Marking<'a> {
    patterns: &'a PluralElements<Pattern<SinglePlaceholder>>,
    rules: &'a PluralRules,
}

impl Frame for Marking<'_> {
    ghost use Rattle.icu_decimal_interface.specs.OnceLaws.{pattern_stands, unparted_stands};

    ghost framed = { λ f operands es. interpolated
        (selected f.patterns.now operands (category_of f.rules.now operands)) (without_parts es) };

    ghost leaves_out = { λ f operands.
        (selected f.patterns.now operands (category_of f.rules.now operands)).placeholder ≡ None };

    ghost once = { λ f operands. pattern_stands
        (selected f.patterns.now operands (category_of f.rules.now operands)).literal
        (selected f.patterns.now operands (category_of f.rules.now operands)).placeholder
        unparted_stands };

    fn write_framed<N: ShownNumber, K: EventWriter>(
        &self,
        number: &N,
        out: &mut K,
    ) -> Result<(), WriteFault> {
        let pattern = self.patterns.get(number.plural_operands(), self.rules);
        pattern
            .interpolate(Characters::of(number))
            .write_events(out)
    }
}

/// What a sink holds of a number in a frame, and behind it the text if that is another one.
fn of_frame<F: AbstractFormatter>(
    alloc: Global,
    formatter: &F,
    number: &UnsignedDecimal,
    frame: &Marking<'_>,
) -> CallResult {
    let mut sink = sink_of(alloc, None);
    let returned = formatter.write_framed(alloc, number, frame, &mut sink);
    let spelled = written(alloc, &sink, returned);
    with_text(
        alloc,
        spelled,
        formatter.framed_to_string(alloc, number, frame),
        None,
    )
}

/// The pattern of a text behind a number.
pub(crate) fn behind_number(
    alloc: Global,
    text: &str,
) -> Result<Pattern<SinglePlaceholder>, AllocError> {
    match Pattern::try_new(alloc, Some(0), text) {
        Ok(pattern) => Ok(pattern),
        Err(_) => Err(AllocError),
    }
}

/// Patterns that mark a number of the category one, and another number.
fn marks(alloc: Global) -> Result<PluralElements<Pattern<SinglePlaceholder>>, AllocError> {
    let one = behind_number(alloc, " is one")?;
    let other = behind_number(alloc, " is another")?;
    Ok(PluralElements::new(other).with_one_value(Some(one)))
}

/// A number, marked by rules.
fn marked<F: AbstractFormatter>(
    alloc: Global,
    formatter: &F,
    number: &UnsignedDecimal,
    rules: &PluralRules,
) -> CallResult {
    let patterns = marks(alloc)?;
    let frame = Marking {
        patterns: &patterns,
        rules,
    };
    of_frame(alloc, formatter, number, &frame)
}

/// A number in the frame that a condition of its operands picks.
pub(crate) fn picked<F: AbstractFormatter>(
    alloc: Global,
    formatter: &F,
    number: &UnsignedDecimal,
    condition: &str,
) -> CallResult {
    match PluralRules::from_rules(alloc, &[(PluralCategory::One, condition)]) {
        Ok(rules) => marked(alloc, formatter, number, &rules),
        Err(RulesError::OutOfMemory) => Err(AllocError),
        Err(_) => Ok(None),
    }
}
