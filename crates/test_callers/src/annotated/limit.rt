//! Sinks with a limit, and what they hold after a fault.
ghost use Rattle.std.specs.Prelude.{◌≡◌, take};
ghost use Rattle.writeable.specs.Annotated.{IsFull};
ghost use Rattle.writeable.specs.Sink.{one_more_failure};

use super::{DECIMAL, FRACTION, INTEGER, MINUS_SIGN, is_annotated, sink_with};
use std::alloc::Global;
use writeable::{Part, PartsText, PartsWrite, WriteFault, Writeable};

/// English -1.5 with its parts: fourteen events.
const MINUS_ONE_POINT_FIVE: &str = "{-)(1)<.)/5){)";

/// The text after that many events, for each number from none to one more than all.
const BEGINNINGS: [&str; 16] = [
    "", "", "-", "-", "-", "-1", "-1", "-1", "-1.", "-1.", "-1.", "-1.5", "-1.5", "-1.5", "-1.5",
    "-1.5",
];

/// Whether a sink with this limit holds this text, and failed where the limit is less than all.
fn is_beginning(alloc: Global, limit: usize, text: &str) -> bool {
    let (written, sink) = sink_with(alloc, Some(limit), MINUS_ONE_POINT_FIVE);
    written.is_ok() == (limit >= 14) && sink.text() == text && !sink.growth_refused()
}

#[test]
fn takes_events_up_to_the_limit(rt: HostRuntime) {
    for (limit, text) in BEGINNINGS.iter().enumerate() {
        assert!(rt; is_beginning(rt.alloc(), limit, text), "with limit {limit}");
    }
}

fn has_spans(alloc: Global, want: &[(usize, usize, Part)]) -> bool {
    let (_, sink) = sink_with(alloc, Some(14), MINUS_ONE_POINT_FIVE);
    is_annotated(alloc, &sink, "-1.5", want)
}

#[test]
fn leaves_out_the_empty_suffix(rt: HostRuntime) {
    let spans = [
        (0, 1, MINUS_SIGN),
        (1, 2, INTEGER),
        (2, 3, DECIMAL),
        (3, 4, FRACTION),
    ];
    assert!(rt; has_spans(rt.alloc(), &spans));
}

/// A sink with a limit takes just the first events of a value, unless a growth failed to it:
/// that is what its contract says, of every value.
fn first_events<T: Writeable>(alloc: Global, value: &T, limit: usize) -> PartsText
    ensures { result.refusals ≡ 0 → result.events ≡ take limit (T.events value.now) }
{
    let mut sink = PartsText::with_limit(alloc, limit);
    let _written = value.write_to_parts(&mut sink);
    let _held = sink.text();
    sink
}

/// Whether a text is cut after its first characters; asked once more where a growth failed.
fn is_cut(alloc: Global, text: &str, limit: usize, front: &str) -> bool {
    let sink = first_events(alloc, &text, limit);
    if sink.growth_refused() {
        return first_events(alloc, &text, limit).text() == front;
    }
    sink.text() == front
}

#[test]
fn takes_the_first_events(rt: HostRuntime) {
    for (limit, front) in FRONTS.iter().enumerate() {
        assert!(rt;
            is_cut(rt.alloc(), FRONTS[4], limit, front),
            "with limit {limit}"
        );
    }
}

/// The front of a text of four characters, of one to four bytes, for each limit from none to all.
const FRONTS: [&str; 5] = [
    "",
    "a",
    "a\u{f1}",
    "a\u{f1}\u{20ac}",
    "a\u{f1}\u{20ac}\u{1f600}",
];

/// Whether a full sink rejects all but an empty text.
fn is_full(sink: &mut PartsText) -> bool {
    sink.write_str("") == Ok(())
        && sink.write_str("b") == Err(WriteFault)
        && sink.write_char('b') == Err(WriteFault)
        && sink.open_part(INTEGER) == Err(WriteFault)
        && sink.close_part() == Err(WriteFault)
}

/// Whether a sink takes the characters that fit and is full then; asked once more where a growth
/// failed.
fn keeps(alloc: Global, limit: usize, front: &str) -> bool {
    let mut sink = PartsText::with_limit(alloc, limit);
    let mut written = sink.write_str(FRONTS[4]);
    if sink.growth_refused() {
        sink = PartsText::with_limit(alloc, limit);
        written = sink.write_str(FRONTS[4]);
    }
    written.is_ok() == (limit == 4) && is_full(&mut sink) && sink.text() == front
}

#[test]
fn keeps_the_characters_that_fit(rt: HostRuntime) {
    for (limit, front) in FRONTS.iter().enumerate() {
        assert!(rt; keeps(rt.alloc(), limit, front), "with limit {limit}");
    }
}

/// Two failures are counted as two: that is what its contract says.
fn fail_twice(sink: &mut PartsText)
    requires { IsFull sink.old }
    ensures { sink.new.failures ≡ one_more_failure (one_more_failure sink.old.failures) }
{
    let _first = sink.write_char('a');
    let _second = sink.close_part();
}

#[test]
fn counts_two_failures(rt: HostRuntime) {
    let mut sink = PartsText::with_limit(rt.alloc(), 0);
    fail_twice(&mut sink);
    assert_eq!(rt; sink.text(), "");
}
