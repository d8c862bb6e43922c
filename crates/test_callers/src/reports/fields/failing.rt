//! Readers and writers that fail: what is written then.

use crate::reports::fields::running::{Left, runs};
use crate::reports::slow::Full;
use locnum_lines::RunError;

const LINES: &[u8] = b"5 a\nx\n7";

/// How much room each writer has, and what is in the output and in the notes where it ends.
const ROOMS: [(usize, &str, &str); 4] = [
    (0, "", ""),
    (3, "5 a", ""),
    (4, "5 a\n", ""),
    (8, "5 a\nx\n", "locnum: "),
];

/// Whether that holds where a full writer fails, and where it takes no more.
fn keeps(rt: &HostRuntime, room: usize, output: &str, notes: &str) -> bool {
    let left = Left {
        error: RunError::Write,
        output: output.as_bytes(),
        notes: notes.as_bytes(),
    };
    let input = (LINES, usize::MAX, usize::MAX);
    runs(rt.alloc(), input, (room, Full::Fails), left)
        && runs(rt.alloc(), input, (room, Full::TakesNothing), left)
}

#[test]
fn keeps_a_beginning_where_writing_fails(rt: HostRuntime) {
    for &(room, output, notes) in &ROOMS {
        assert!(rt; keeps(&rt, room, output, notes), "after {room}");
    }
}

/// How many bytes can be read, one a call, and what is written of them.
const GOOD: [(usize, &str, &str); 5] = [
    (0, "", ""),
    (3, "", ""),
    (4, "5 a\n", ""),
    (5, "5 a\n", ""),
    (6, "5 a\nx\n", "locnum: line 2, field 1: x: not a decimal\n"),
];

#[test]
fn keeps_whole_lines_where_reading_fails(rt: HostRuntime) {
    for &(good, output, notes) in &GOOD {
        let left = Left {
            error: RunError::Read,
            output: output.as_bytes(),
            notes: notes.as_bytes(),
        };
        let input = (LINES, good, 1);
        let output = (usize::MAX, Full::Fails);
        assert!(rt; runs(rt.alloc(), input, output, left), "after {good}");
    }
}
