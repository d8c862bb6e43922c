//! The spans of worked texts.
use super::{GROUP, INTEGER, is_annotated, sink_with};
use std::alloc::{AllocError, Global};
use std::str;
use writeable::{OutOfMemory, Part, PartsText};

struct Case {
    marked: &'static str,
    text: &'static str,
    spans: &'static [(usize, usize, Part)],
}

const CASES: [Case; 11] = [
    Case {
        marked: "",
        text: "",
        spans: &[],
    },
    Case {
        marked: "plain",
        text: "plain",
        spans: &[],
    },
    Case {
        marked: "=(12)[,)",
        text: "=12,",
        spans: &[(1, 3, INTEGER), (3, 4, GROUP)],
    },
    // Nested: the outer part was opened first.
    Case {
        marked: "(1[,)000)",
        text: "1,000",
        spans: &[(0, 5, INTEGER), (1, 2, GROUP)],
    },
    // Two inside of one, the last of which ends where that one does.
    Case {
        marked: "([a)[b))",
        text: "ab",
        spans: &[(0, 2, INTEGER), (0, 1, GROUP), (1, 2, GROUP)],
    },
    // Empty parts make no span.
    Case {
        marked: "([)x)[)",
        text: "x",
        spans: &[(0, 1, INTEGER)],
    },
    // A close with nothing open makes none, nor does it close what is opened later.
    Case {
        marked: ")a)(b))",
        text: "ab",
        spans: &[(1, 2, INTEGER)],
    },
    // A part that is never closed makes none: the close is that of the part opened last.
    Case {
        marked: "(a[b)",
        text: "ab",
        spans: &[(1, 2, GROUP)],
    },
    Case {
        marked: "(a[",
        text: "a",
        spans: &[],
    },
    // Characters of one to four bytes.
    Case {
        marked: "a(\u{f1})[\u{20ac})(\u{1f600})z",
        text: "a\u{f1}\u{20ac}\u{1f600}z",
        spans: &[(1, 3, INTEGER), (3, 6, GROUP), (6, 10, INTEGER)],
    },
    Case {
        marked: "(\u{f1}[\u{20ac})\u{1f600})",
        text: "\u{f1}\u{20ac}\u{1f600}",
        spans: &[(0, 9, INTEGER), (2, 5, GROUP)],
    },
];

fn is_marked(alloc: Global, case: &Case) -> bool {
    let (written, sink) = sink_with(alloc, None, case.marked);
    written == Ok(()) && is_annotated(alloc, &sink, case.text, case.spans)
}

#[test]
fn spans_in_the_order_of_opening(rt: HostRuntime) {
    for case in &CASES {
        assert!(rt; is_marked(rt.alloc(), case), "in {}", case.marked);
    }
}

/// A digit and a separator in parts of their own, that many times.
fn many_parts_once(alloc: Global, count: usize) -> Result<Vec<u8>, AllocError> {
    let mut marked = Vec::new(alloc);
    for _ in 0..count {
        marked.extend_from_slice(b"(1)[,)")?;
    }
    Ok(marked)
}

/// The same, made once more where memory ran out.
fn many_parts(alloc: Global, count: usize) -> Result<Vec<u8>, AllocError> {
    match many_parts_once(alloc, count) {
        Ok(marked) => Ok(marked),
        Err(_) => many_parts_once(alloc, count),
    }
}

/// Whether the spans are those of a digit and a separator by turns.
fn are_by_turns(spans: &[(usize, usize, Part)]) -> bool {
    spans.iter().enumerate().all(|(index, span)| {
        let part = if index % 2 == 0 { INTEGER } else { GROUP };
        *span == (index, index.wrapping_add(1), part)
    })
}

/// Whether a sink has that many such spans, asked once more where memory ran out.
fn has_parts_by_turns(alloc: Global, sink: &PartsText, count: usize) -> bool {
    match sink.spans(alloc) {
        Ok(spans) => spans.len() == count && are_by_turns(spans.as_slice()),
        Err(OutOfMemory) => match sink.spans(alloc) {
            Ok(spans) => spans.len() == count && are_by_turns(spans.as_slice()),
            Err(OutOfMemory) => false,
        },
    }
}

/// Whether that many pairs of parts are listed.
fn tells_many(alloc: Global, count: usize) -> bool {
    match many_parts(alloc, count) {
        Ok(marked) => {
            let text = str::from_utf8(&marked).unwrap_or_default();
            let (written, sink) = sink_with(alloc, None, text);
            written == Ok(()) && has_parts_by_turns(alloc, &sink, count.wrapping_mul(2))
        }
        Err(_) => false,
    }
}

#[test]
fn tells_many_spans(rt: HostRuntime) {
    assert!(rt; tells_many(rt.alloc(), 5000));
}
