//! The digits of a text.

ghost use Rattle.std.specs.Prelude.{◌≡◌, ◌<◌, ◌+◌, ◌^◌, ◌++◌, [], All, IfOk, IfSome, OnOk, chars};
ghost use Rattle.std.specs.List.{cons_option};
ghost use Rattle.icu_decimal_reading.specs.Reading.{last_run, run_past, value_of, values};

use std::alloc::{AllocError, Global};

/// The value of a character, if it is one of the digits.
fn value_of(digits: &[char; 10], character: char) -> Option<u8>
    ensures value { result ≡ value_of digits.now character }
    ensures below_ten { IfSome result (λ d. d < 10) }
{
    let mut value = 0;
    for digit in digits {
        if *digit == character {
            return Some(value);
        }
        value += 1;
    }
    None
}

/// Puts a value at the end, if there is one.
fn push_value(values: &mut Vec<u8>, value: Option<u8>) -> Result<(), AllocError>
    ensures { OnOk result (values.new.items ≡ values.old.items ++ cons_option value []) }
{
    if let Some(value) = value {
        values.push(value)?;
    }
    Ok(())
}

/// The values of those characters of a text that are digits, in order.
pub(crate) fn values_of(
    alloc: Global,
    digits: &[char; 10],
    text: &str,
) -> Result<Vec<u8>, AllocError>
    ensures values { IfOk result (λ v. v.items ≡ values digits.now (chars text.now)) }
    ensures below_ten { IfOk result (λ v. All (λ d. d < 10) v.items) }
{
    let mut values = Vec::new(alloc);
    for character in text.chars() {
        push_value(&mut values, value_of(digits, character))?;
    }
    Ok(values)
}

/// The last run of digits of the characters so far.
#[derive(Clone, Copy)]
struct Run {
    /// How many digits it has.
    count: usize,
    /// Whether no other character stands behind it.
    is_open: bool,
}

/// The last run once a further character is seen.
fn run_past(is_digit: bool, run: Run) -> Run
    requires { run.count + 1 < 2 ^ 64 }
    ensures { result ≡ run_past is_digit run }
{
    if !is_digit {
        return Run {
            count: run.count,
            is_open: false,
        };
    }
    Run {
        count: if run.is_open { run.count + 1 } else { 1 },
        is_open: true,
    }
}

/// How many digits the last run of digits of a text has.
pub(crate) fn last_run(digits: &[char; 10], text: &str) -> usize
    ensures { result ≡ last_run digits.now (chars text.now) }
{
    let mut run = Run {
        count: 0,
        is_open: false,
    };
    for character in text.chars() {
        run = run_past(value_of(digits, character).is_some(), run);
    }
    run.count
}
