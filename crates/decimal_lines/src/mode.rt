//! How each line is formatted.

use icu_decimal::{CompactDecimalFormatter, DecimalFormatter};
use icu_decimal_options::options::DecimalFormatterOptions;
use icu_decimal_symbols::DecimalSymbols;
use std::alloc::Global;
use thiserror::Error;
use writeable::ASCII_DIGITS;

/// Why there is no formatter.
#[derive(Clone, Copy, Debug, PartialEq, Eq, Error)]
pub enum StartError {
    /// The file of tables isn't UTF-8, or its text is rejected.
    #[error("tables refused")]
    Tables,
    /// The tables lack data that the formatter needs.
    #[error("no data")]
    NoData,
    /// An allocation failed.
    #[error("out of memory")]
    OutOfMemory,
}

/// The formatter of a run: plain numbers, or compact ones.
#[derive(Drop)]
pub enum Mode {
    /// Numbers in full.
    Plain(DecimalFormatter),
    /// Numbers shortened by patterns, the short or the long ones.
    Compact(CompactDecimalFormatter),
}

impl Mode {
    ghost use Rattle.std.specs.Prelude.{◌≡◌, IfOk, IsOkUnless};
    ghost use Rattle.decimal_lines.specs.declared.mode.Mode.TheVariants.{Plain};
    ghost use Rattle.decimal_lines.specs.Plain.{english};

    /// Plain numbers in English.
    // promise: Without arguments the formatter is the English one.
    // mutations: another_digit, english_never_groups
    pub fn english(alloc: Global) -> Result<Mode, StartError>
        ensures mode { IfOk result (λ mode. mode ≡ Plain english) }
        ensures memory { IsOkUnless result StartError.OutOfMemory }
    {
        let Ok(symbols) = DecimalSymbols::new_en_for_testing(alloc) else {
            return Err(StartError::OutOfMemory);
        };
        let options = DecimalFormatterOptions::default();
        Ok(Mode::Plain(DecimalFormatter::from_parts(symbols, ASCII_DIGITS, options)))
    }
}
