//! Errors under a width, a fill, a precision and the alternate form: the same characters, unpadded.

use crate::styled::is_styled;
use fixed_decimal::DecimalError;

const ERRORS: &[(DecimalError, &str)] = &[
    (DecimalError::Syntax, "not a decimal"),
    (DecimalError::Limit, "too many digits"),
    (DecimalError::OutOfMemory, "out of memory"),
];

#[test]
fn displays_errors_under_every_style(rt: HostRuntime) {
    for &(error, want) in ERRORS {
        assert!(rt; is_styled(rt.alloc(), &error, want), "{want}");
    }
}
