//! Numbers with a suffix.

use crate::CallResult;
use crate::digits::digits_of;
use fixed_decimal::{Decimal, DecimalError, SignedRoundingMode, UnsignedRoundingMode};
use scaled_units::{FromScale, NotScaled, Scale, ScaleError, read_scaled, scale_down, suffix_of};
use std::alloc::{AllocError, Global};

/// The scale of a name, for numbers that are read.
fn read_scale(name: &str) -> Option<FromScale> {
    match name {
        "none" => Some(FromScale::None),
        "auto" => Some(FromScale::Auto),
        "si" => Some(FromScale::Si),
        "iec" => Some(FromScale::Iec),
        "iec-i" => Some(FromScale::IecI),
        _ => None,
    }
}

/// The scale of a name, for numbers that are written.
fn written_scale(name: &str) -> Option<Scale> {
    match name {
        "si" => Some(Scale::Si),
        "iec" => Some(Scale::Iec),
        "iec-i" => Some(Scale::IecI),
        _ => None,
    }
}

/// The rounding mode of numfmt's name.
fn mode_of(name: &str) -> Option<SignedRoundingMode> {
    match name {
        "up" => Some(SignedRoundingMode::Ceil),
        "down" => Some(SignedRoundingMode::Floor),
        "from-zero" => Some(SignedRoundingMode::Unsigned(UnsignedRoundingMode::Expand)),
        "towards-zero" => Some(SignedRoundingMode::Unsigned(UnsignedRoundingMode::Trunc)),
        "nearest" => Some(SignedRoundingMode::Unsigned(UnsignedRoundingMode::HalfExpand)),
        _ => None,
    }
}

/// A fault with its byte.
fn at(alloc: Global, fault: &str, byte: usize) -> CallResult {
    Ok(Some(format!(in alloc; "{fault} {byte}")?))
}

/// A word.
fn word(alloc: Global, text: &str) -> CallResult {
    Ok(Some(String::from_str(alloc, text)?))
}

/// A fault, with its byte if it has one.
fn rejected(alloc: Global, fault: NotScaled) -> CallResult {
    match fault {
        NotScaled::Number => word(alloc, "Number"),
        NotScaled::UnknownSuffix { byte } => at(alloc, "UnknownSuffix", byte),
        NotScaled::SuffixNotTaken { byte } => at(alloc, "SuffixNotTaken", byte),
        NotScaled::MissingI { byte } => at(alloc, "MissingI", byte),
        NotScaled::BehindSuffix { byte } => at(alloc, "BehindSuffix", byte),
        NotScaled::Limit => word(alloc, "Limit"),
        NotScaled::OutOfMemory => Err(AllocError),
    }
}

/// What `read_scaled` answers.
pub(crate) fn read(alloc: Global, name: &str, text: &str) -> CallResult {
    let Some(scale) = read_scale(name) else {
        return Ok(None);
    };
    match read_scaled(alloc, scale, text) {
        Ok(decimal) => digits_of(alloc, &decimal),
        Err(fault) => rejected(alloc, fault),
    }
}

/// What a decimal is shown as, with its suffix.
fn shown(alloc: Global, decimal: &Decimal, scale: Scale, mode: SignedRoundingMode) -> CallResult {
    let scaled = match scale_down(alloc, decimal, scale, mode) {
        Ok(scaled) => scaled,
        Err(ScaleError::Limit) => return word(alloc, "Limit"),
        Err(ScaleError::OutOfMemory) => return Err(AllocError),
    };
    match digits_of(alloc, &scaled.number)? {
        Some(digits) => {
            let suffix = suffix_of(scale, scaled.power);
            Ok(Some(format!(in alloc; "{digits}{suffix}")?))
        }
        None => Ok(None),
    }
}

/// What `scale_down` answers, with the suffix of `suffix_of`.
pub(crate) fn written(alloc: Global, name: &str, round: &str, number: &str) -> CallResult {
    let (Some(scale), Some(mode)) = (written_scale(name), mode_of(round)) else {
        return Ok(None);
    };
    match Decimal::try_from_str(alloc, number) {
        Ok(decimal) => shown(alloc, &decimal, scale, mode),
        Err(DecimalError::OutOfMemory) => Err(AllocError),
        Err(_) => Ok(None),
    }
}
