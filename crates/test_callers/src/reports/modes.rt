//! Lines by readers and writers that fail, and the laws. Values live in functions that answer whether
//! they hold; what failed for memory is made once more.

mod compact;
mod failing;

use crate::reports::slow::{Full, SlowWriter};
use decimal_lines::laws::{
    each_line_has_its_result, inputs_have_one_list_of_lines, lines_run_apart, mode_has_table,
    texts_have_one_result,
};
use decimal_lines::{Mode, RunError, StartError, run};
use rows::SlowReader;
use std::alloc::Global;

/// What is seen of a run.
#[derive(Clone, Copy, PartialEq, Eq)]
enum Seen {
    Holds,
    Differs,
    WantsMemory,
}

impl Seen {
    /// What is seen of a run that ended so.
    fn after(ended: Result<(), RunError>, is_as_usual: bool) -> Seen {
        match ended {
            Err(RunError::OutOfMemory) => Seen::WantsMemory,
            _ if is_as_usual => Seen::Holds,
            _ => Seen::Differs,
        }
    }
}

/// The plain mode, made once more where memory ran out.
fn english(alloc: Global) -> Result<Mode, StartError> {
    match Mode::english(alloc) {
        Ok(mode) => Ok(mode),
        Err(_) => Mode::english(alloc),
    }
}

/// Whether a run over these bytes, of which `good` can be read, into a writer with this room ends
/// so and leaves this there.
fn seen_slowly(
    alloc: Global,
    mode: &Mode,
    (bytes, good): (&[u8], usize),
    (room, full): (usize, Full),
    (outcome, want): (Result<(), RunError>, &[u8]),
) -> Seen {
    let Ok(held) = Vec::with_capacity(alloc, want.len() + 1) else {
        return Seen::WantsMemory;
    };
    let mut reader = SlowReader {
        bytes,
        good,
        at_once: 1,
    };
    let mut writer = SlowWriter { held, room, full };
    let ended = run(alloc, mode, &mut reader, &mut writer);
    Seen::after(ended, ended == outcome && writer.held.as_slice() == want)
}

/// Whether that holds, asked once more where memory ran out.
fn runs_slowly(
    alloc: Global,
    mode: &Mode,
    input: (&[u8], usize),
    output: (usize, Full),
    want: (Result<(), RunError>, &[u8]),
) -> bool {
    let first = seen_slowly(alloc, mode, input, output, want);
    let last = match first {
        Seen::WantsMemory => seen_slowly(alloc, mode, input, output, want),
        _ => first,
    };
    last == Seen::Holds
}

/// Whether the English run ends so and leaves this.
fn ends(
    alloc: Global,
    input: (&[u8], usize),
    output: (usize, Full),
    want: (Result<(), RunError>, &[u8]),
) -> bool {
    match english(alloc) {
        Ok(mode) => runs_slowly(alloc, &mode, input, output, want),
        Err(_) => false,
    }
}

/// Whether a run answers as usual or because memory ran out.
fn runs_or_wants_memory(alloc: Global, input: &[u8], want: &[u8]) -> bool {
    let mut written = Vec::new(alloc);
    let mut rest = input;
    match Mode::english(alloc) {
        Ok(mode) => match run(alloc, &mode, &mut rest, &mut written) {
            Ok(()) => written.as_slice() == want,
            Err(error) => error != RunError::Read,
        },
        Err(_) => true,
    }
}

/// Holds whichever one allocation fails: the answer is the usual one or out of memory.
#[test]
fn runs_again_after_want_of_memory(rt: HostRuntime) {
    for _ in 0..2 {
        assert!(rt;
            runs_or_wants_memory(
                rt.alloc(),
                b"1000007\n-987654.321\n",
                b"1,000,007\n-987,654.321\n"
            )
        );
    }
}

#[test]
fn states_the_laws(rt: HostRuntime) {
    texts_have_one_result();
    inputs_have_one_list_of_lines();
    lines_run_apart();
    let mode = english(rt.alloc());
    assert!(rt; mode.is_ok());
    if let Ok(mode) = &mode {
        mode_has_table(mode);
        each_line_has_its_result(mode);
    }
}
