//! A law of all symbols. The function does nothing: it is its contract.

ghost use Rattle.icu_decimal_symbols.specs.Symbols.{SymbolTexts, IsSymbolTexts};
ghost use Rattle.icu_decimal_symbols.specs.SymbolBytes.{IsReadAgain};

/// `SymbolsView::parse` accepts the byte string of symbols, which `DecimalSymbolsStrs::as_bytes`
/// returns, and the view has their seven texts.
// promise: Symbols are read again from their own bytes.
#[tactic(auto, using(crate::proofs::SymbolDamage::is_read_again))]
pub fn symbols_are_read_again()
    ensures { (s : SymbolTexts) → IsSymbolTexts s → IsReadAgain s }
{}
