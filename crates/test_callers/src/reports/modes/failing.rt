//! Readers and writers that fail: what is written then.

use super::ends;
use crate::reports::slow::Full;
use decimal_lines::RunError;
use std::alloc::Global;

const LINES: &[u8] = b"5\n6\r\n7";

/// How much room there is, and what is held where it ends.
const ROOMS: &[(usize, &str)] = &[
    (0, ""),
    (1, "5"),
    (2, "5\n"),
    (3, "5\n6"),
    (4, "5\n6\n"),
    (5, "5\n6\n7"),
];

/// Whether a writer with this room is left with this, if it then fails and also if it then takes no
/// more.
fn keeps(alloc: Global, room: usize, want: &[u8]) -> bool {
    let fault = Err(RunError::Write);
    ends(
        alloc,
        (LINES, usize::MAX),
        (room, Full::Fails),
        (fault, want),
    ) && ends(
        alloc,
        (LINES, usize::MAX),
        (room, Full::TakesNothing),
        (fault, want),
    )
}

#[test]
fn keeps_a_beginning_where_writing_fails(rt: HostRuntime) {
    for &(room, want) in ROOMS {
        assert!(rt; keeps(rt.alloc(), room, want.as_bytes()), "after {room}");
    }
}

/// How many bytes can be read, and what is written of them.
const GOOD: &[(usize, &str)] = &[
    (0, ""),
    (1, ""),
    (2, "5\n"),
    (3, "5\n"),
    (4, "5\n"),
    (5, "5\n6\n"),
];

#[test]
fn keeps_whole_lines_where_reading_fails(rt: HostRuntime) {
    for &(good, want) in GOOD {
        assert!(rt;
            ends(
                rt.alloc(),
                (LINES, good),
                (usize::MAX, Full::Fails),
                (Err(RunError::Read), want.as_bytes())
            ),
            "after {good}"
        );
    }
}
