//! How fine numbers are: fraction digits, significant digits, or multiples of an increment.

ghost use Rattle.std.specs.Prelude.{◌≡◌, ◌++◌, IfOk, codes, option_map, string_bytes};
ghost use Rattle.number_skeleton.specs.Tokens.{skeleton_of};
ghost use Rattle.locnum_options.specs.Options.{GivesOption};
ghost use Rattle.locnum_options.specs.Precision.{are_several, first_precision, fraction_given, increment_given, increment_named, increment_read, is_number_byte, is_number_text, precision_given, precision_named, precision_set, significant_given, significant_of};

use crate::counts::{Counts, counts_named};
use crate::fault::OptionFault;
use crate::given::Given;
use number_skeleton::read_skeleton;
use skeleton_settings::Precision;
use std::alloc::{AllocError, Global};

/// Fraction digits between two counts; none are asked for by default.
#[tactic(auto, unfolding(crate::specs::Precision::fraction_given))]
fn fraction_given(text: Option<&str>) -> Result<Option<Precision>, OptionFault>
    ensures { result ≡ fraction_given (option_map (λ t. t.now) text.entry) }
{
    let Some(text) = text else {
        return Ok(None);
    };
    match counts_named(text) {
        Some(Counts { least, most }) => Ok(Some(Precision::Fraction {
            least,
            most: Some(most),
        })),
        None => Err(OptionFault::Fraction),
    }
}

/// Significant digits between two counts, the least of which is 1 or more.
#[tactic(auto, unfolding(crate::specs::Precision::significant_of))]
fn significant_of(counts: Counts) -> Result<Precision, OptionFault>
    ensures { result ≡ significant_of counts }
{
    if counts.least == 0 {
        return Err(OptionFault::Significant);
    }
    Ok(Precision::Significant {
        least: counts.least,
        most: Some(counts.most),
    })
}

/// Significant digits between two counts; none are asked for by default.
#[tactic(auto, unfolding(crate::specs::Precision::significant_given))]
fn significant_given(text: Option<&str>) -> Result<Option<Precision>, OptionFault>
    ensures { result ≡ significant_given (option_map (λ t. t.now) text.entry) }
{
    let Some(text) = text else {
        return Ok(None);
    };
    match counts_named(text) {
        Some(counts) => Ok(Some(significant_of(counts)?)),
        None => Err(OptionFault::Significant),
    }
}

/// Whether a byte is a digit or a point.
fn is_number_byte(byte: u8) -> bool
    ensures { result ≡ is_number_byte byte }
{
    byte == b'.' || (b'0' <= byte && byte <= b'9')
}

/// Whether a text has digits and points alone, and so sets nothing else in a skeleton.
#[tactic(auto, unfolding(crate::specs::Precision::is_number_text))]
pub(crate) fn is_number_text(text: &str) -> bool
    ensures { result ≡ is_number_text text.now }
{
    text.as_bytes().iter().all(|byte| is_number_byte(*byte))
}

/// The number skeleton that sets this increment alone.
fn increment_skeleton(alloc: Global, text: &str) -> Result<String, AllocError>
    ensures { IfOk result (λ s. string_bytes s ≡ codes "precision-increment/" ++ text.now) }
{
    let mut skeleton = String::from_str(alloc, "precision-increment/")?;
    skeleton.push_str(text)?;
    Ok(skeleton)
}

/// The precision that a skeleton sets, if it sets one.
fn precision_set(skeleton: &str) -> Option<Precision>
    ensures { result ≡ precision_set (skeleton_of skeleton.now) }
{
    match read_skeleton(skeleton) {
        Ok(skeleton) => skeleton.precision,
        Err(_) => None,
    }
}

/// The increment of a text as number skeletons have it.
#[tactic(auto, unfolding(crate::specs::Precision::increment_read))]
fn increment_read(alloc: Global, text: &str) -> Result<Option<Precision>, AllocError>
    ensures { IfOk result (λ p. p ≡ increment_read text.now) }
{
    let skeleton = increment_skeleton(alloc, text)?;
    Ok(precision_set(skeleton.as_str()))
}

/// The increment of a text.
#[tactic(auto, unfolding(crate::specs::Precision::increment_named))]
fn increment_named(alloc: Global, text: &str) -> Result<Precision, OptionFault>
    ensures { GivesOption (λ x. x) result (increment_named text.now) }
{
    if !is_number_text(text) {
        return Err(OptionFault::Increment);
    }
    match increment_read(alloc, text)? {
        Some(precision) => Ok(precision),
        None => Err(OptionFault::Increment),
    }
}

/// Multiples of an increment; none are asked for by default.
#[tactic(auto, unfolding(crate::specs::Precision::increment_given))]
fn increment_given(alloc: Global, text: Option<&str>) -> Result<Option<Precision>, OptionFault>
    ensures { GivesOption (λ x. x) result
        (increment_given (option_map (λ t. t.now) text.entry)) }
{
    let Some(text) = text else {
        return Ok(None);
    };
    Ok(Some(increment_named(alloc, text)?))
}

/// Whether more than one of the options is given that say how fine numbers are.
#[tactic(auto, unfolding(crate::specs::Precision::are_several))]
fn are_several(given: &Given) -> bool
    ensures { result ≡ are_several given.now }
{
    let increment = given.flag("increment");
    let cash = given.flag("cash");
    (given.flag("fraction") && (given.flag("significant") || increment || cash))
        || (given.flag("significant") && (increment || cash))
        || (increment && cash)
}

/// The first precision that there is.
fn first_precision(first: Option<Precision>, other: Option<Precision>) -> Option<Precision>
    ensures { result ≡ first_precision first other }
{
    match first {
        Some(precision) => Some(precision),
        None => other,
    }
}

/// The first precision that an option says; each of them is in order.
#[tactic(auto, unfolding(crate::specs::Precision::precision_named))]
fn precision_named(alloc: Global, given: &Given) -> Result<Option<Precision>, OptionFault>
    ensures { GivesOption (λ x. x) result (precision_named given.now) }
{
    let fraction = fraction_given(given.text("fraction"))?;
    let significant = significant_given(given.text("significant"))?;
    let increment = increment_given(alloc, given.text("increment"))?;
    Ok(first_precision(fraction, first_precision(significant, increment)))
}

/// How fine numbers are, which one option says; by default as the kind has it.
#[tactic(auto, unfolding(crate::specs::Precision::precision_given))]
pub(crate) fn precision_given(
    alloc: Global,
    given: &Given,
) -> Result<Option<Precision>, OptionFault>
    ensures { GivesOption (λ x. x) result (precision_given given.now) }
{
    let precision = precision_named(alloc, given)?;
    if are_several(given) {
        return Err(OptionFault::Precisions);
    }
    Ok(precision)
}
