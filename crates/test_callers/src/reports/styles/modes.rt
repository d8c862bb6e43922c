//! Errors under a width, a fill, a precision and the alternate form: the same characters, unpadded.

use crate::styled::is_styled;
use decimal_lines::{FillError, RunError, StartError};

const STARTS: &[(StartError, &str)] = &[
    (StartError::Tables, "tables refused"),
    (StartError::NoData, "no data"),
    (StartError::OutOfMemory, "out of memory"),
];

#[test]
fn displays_why_there_is_no_mode_under_every_style(rt: HostRuntime) {
    for &(error, want) in STARTS {
        assert!(rt; is_styled(rt.alloc(), &error, want), "{want}");
    }
}

const RUNS: &[(RunError, &str)] = &[
    (RunError::Read, "reading failed"),
    (RunError::Write, "writing failed"),
    (RunError::OutOfMemory, "out of memory"),
];

#[test]
fn displays_why_a_run_ended_under_every_style(rt: HostRuntime) {
    for &(error, want) in RUNS {
        assert!(rt; is_styled(rt.alloc(), &error, want), "{want}");
    }
}

const FILLS: &[(FillError, &str)] = &[
    (FillError::TooSmall, "the output is too small"),
    (FillError::OutOfMemory, "out of memory"),
];

#[test]
fn displays_why_a_room_is_not_filled_under_every_style(rt: HostRuntime) {
    for &(error, want) in FILLS {
        assert!(rt; is_styled(rt.alloc(), &error, want), "{want}");
    }
}
