//! The power of ten by which numbers are multiplied.

ghost use Rattle.std.specs.Prelude.{◌≡◌, ◌++◌, IfOk, codes, option_map, string_bytes};
ghost use Rattle.number_skeleton.specs.Tokens.{skeleton_of};
ghost use Rattle.locnum_options.specs.Options.{GivesOption};
ghost use Rattle.locnum_options.specs.Scale.{default_scale, scale_given, scale_named, scale_read, scale_set};

use crate::fault::OptionFault;
use crate::given::Given;
use crate::precision::is_number_text;
use number_skeleton::read_skeleton;
use std::alloc::{AllocError, Global};

/// The number skeleton that sets this scale alone.
fn scale_skeleton(alloc: Global, text: &str) -> Result<String, AllocError>
    ensures { IfOk result (λ s. string_bytes s ≡ codes "scale/" ++ text.now) }
{
    let mut skeleton = String::from_str(alloc, "scale/")?;
    skeleton.push_str(text)?;
    Ok(skeleton)
}

/// The power that a text sets, if it is a skeleton.
fn scale_set(skeleton: &str) -> Option<i16>
    ensures { result ≡ scale_set (skeleton_of skeleton.now) }
{
    match read_skeleton(skeleton) {
        Ok(skeleton) => Some(skeleton.scale),
        Err(_) => None,
    }
}

/// The power of a text as number skeletons have it.
#[tactic(auto, unfolding(crate::specs::Scale::scale_read))]
fn scale_read(alloc: Global, text: &str) -> Result<Option<i16>, AllocError>
    ensures { IfOk result (λ p. p ≡ scale_read text.now) }
{
    let skeleton = scale_skeleton(alloc, text)?;
    Ok(scale_set(skeleton.as_str()))
}

/// The power of a text.
#[tactic(auto, unfolding(crate::specs::Scale::scale_named))]
fn scale_named(alloc: Global, text: &str) -> Result<i16, OptionFault>
    ensures { GivesOption (λ x. x) result (scale_named text.now) }
{
    if !is_number_text(text) {
        return Err(OptionFault::Scale);
    }
    match scale_read(alloc, text)? {
        Some(scale) => Ok(scale),
        None => Err(OptionFault::Scale),
    }
}

/// The power without the option: percents are hundredths, permilles are thousandths.
fn default_scale(is_percent: bool, is_permille: bool) -> i16
    ensures { result ≡ default_scale is_percent is_permille }
{
    if is_percent {
        2
    } else if is_permille {
        3
    } else {
        0
    }
}

/// The power of ten by which numbers are multiplied.
#[tactic(auto, unfolding(crate::specs::Scale::scale_given))]
pub(crate) fn scale_given(alloc: Global, given: &Given) -> Result<i16, OptionFault>
    ensures { GivesOption (λ x. x) result (scale_given given.now) }
{
    match given.text("scale") {
        Some(text) => scale_named(alloc, text),
        None => Ok(default_scale(given.flag("percent"), given.flag("permille"))),
    }
}
