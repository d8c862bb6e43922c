//! Symbols in one byte string: each byte of it set to each value is rejected, or read as symbols with
//! these bytes; and each call is one allocation.

use icu_decimal_data::{
    DecimalSymbolStrsBuilder, DecimalSymbols, DecimalSymbolsStrs, SymbolsError, SymbolsView,
};
use std::alloc::Global;
use std::fs;

/// The seven texts in their order: both minus signs, both plus signs, both separators, the system.
type Texts = [&'static str; 7];

/// Arabic of Egypt.
const ARABIC: [u8; 17] = *b"\x01\x00\x01\x00\x02\x02\x04-+\xd9\xab\xd9\xacarab";

fn builder(texts: Texts) -> DecimalSymbolStrsBuilder<'static> {
    DecimalSymbolStrsBuilder {
        minus_sign_prefix: texts[0],
        minus_sign_suffix: texts[1],
        plus_sign_prefix: texts[2],
        plus_sign_suffix: texts[3],
        decimal_separator: texts[4],
        grouping_separator: texts[5],
        numsys: texts[6],
    }
}

/// The answer, or the second answer if an allocation failed.
fn built(
    alloc: Global,
    builder: &DecimalSymbolStrsBuilder<'_>,
) -> Result<DecimalSymbolsStrs, SymbolsError> {
    match builder.build(alloc) {
        Err(SymbolsError::OutOfMemory) => builder.build(alloc),
        answer => answer,
    }
}

/// Whether symbols of the pieces of a view have these bytes.
fn makes_bytes(alloc: Global, view: SymbolsView<'_>, bytes: &[u8]) -> bool {
    let builder = DecimalSymbolStrsBuilder {
        minus_sign_prefix: view.minus_sign_prefix(),
        minus_sign_suffix: view.minus_sign_suffix(),
        plus_sign_prefix: view.plus_sign_prefix(),
        plus_sign_suffix: view.plus_sign_suffix(),
        decimal_separator: view.decimal_separator(),
        grouping_separator: view.grouping_separator(),
        numsys: view.numsys(),
    };
    match built(alloc, &builder) {
        Ok(symbols) => symbols.as_bytes() == bytes,
        Err(_) => false,
    }
}

/// Whether bytes are rejected, or a view whose pieces are symbols with these bytes.
fn is_told(alloc: Global, bytes: &[u8]) -> bool {
    match SymbolsView::parse(bytes) {
        Ok(view) => makes_bytes(alloc, view, bytes),
        Err(damaged) => damaged.byte <= bytes.len(),
    }
}

/// The first value with which a byte of the Arabic string isn't reported.
fn untold(alloc: Global, index: usize) -> Option<u8> {
    if index >= ARABIC.len() {
        return None;
    }
    for value in 0..=255 {
        let mut bytes = ARABIC;
        bytes[index] = value;
        if !is_told(alloc, &bytes) {
            return Some(value);
        }
    }
    None
}

#[test]
fn each_byte_set_to_each_value_is_told(rt: HostRuntime) {
    for index in 0..ARABIC.len() {
        assert!(rt; untold(rt.alloc(), index) == None, "byte {index}");
    }
}

/// Which of four copies is rejected, counted from 2 on; none is 0.
fn refused_copy(alloc: Global, symbols: &DecimalSymbols) -> u64 {
    let mut refused = 0;
    for count in 2..6 {
        if symbols.copy(alloc).is_err() {
            refused = count;
        }
    }
    refused
}

/// Which call is rejected of one that makes symbols and four that copy them, counted from 1 on;
/// none is 0.
fn refused_call(alloc: Global) -> u64 {
    match DecimalSymbols::new_en_for_testing(alloc) {
        Ok(symbols) => refused_copy(alloc, &symbols),
        Err(_) => 1,
    }
}

/// The number that the run has in the file `refused_allocation`.
pub(crate) fn refused_allocation(rt: &HostRuntime) -> Option<u64> {
    let text = fs::read_to_string(rt, "refused_allocation").ok()?;
    text.trim().parse().ok()
}

/// Where the run says which allocation fails, it is the call of that number that is rejected:
/// so no call asks for a second one.
#[test]
fn each_call_is_one_allocation(rt: HostRuntime) {
    let refused = refused_call(rt.alloc());
    if let Some(allocation) = refused_allocation(&rt) {
        assert_eq!(rt; allocation, refused);
    }
}

/// Counted from 1 on: symbols of few bytes, of several bytes a character, and of many bytes.
const BUILT: [(u64, Texts); 5] = [
    (1, ["", "", "", "", "", "", "latn"]),
    (2, ["-", "", "+", "", ".", ",", "latn"]),
    (3, ["\u{61c}-", "₋", "\u{61c}+", "₊", "٫", "٬", "arab"]),
    (4, ["", "", "", "", "\u{202f}", "", "123"]),
    (
        5,
        [
            "minus ",
            " below zero",
            "plus ",
            " above zero",
            " point ",
            " and ",
            "abcdefgh",
        ],
    ),
];

/// Which of these builds is rejected; none is 0.
fn refused_build(alloc: Global) -> u64 {
    let mut refused = 0;
    for &(count, texts) in &BUILT {
        if builder(texts).build(alloc).is_err() {
            refused = count;
        }
    }
    refused
}

/// Where the run says which allocation fails, it is the build of that number that is rejected:
/// so none asks for a second one.
#[test]
fn each_build_is_one_allocation(rt: HostRuntime) {
    let refused = refused_build(rt.alloc());
    if let Some(allocation) = refused_allocation(&rt) {
        assert_eq!(rt; allocation, refused);
    }
}
