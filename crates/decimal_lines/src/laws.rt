//! What the computed definitions mean: each is the only value that a relation allows.

ghost use Rattle.decimal_lines.specs.LineResults.{HasTable};
ghost use Rattle.decimal_lines.specs.Laws.{ResultIsAResult, ResultIsUnique, InputHasLines, LinesAreUnique, OutputHasEachResult};
ghost use Rattle.decimal_lines.specs.Laws.{PiecesRunApart, TwoRunApart};

use crate::mode::Mode;
use icu_decimal::laws::table_is_compact;

/// A text has an answer in each mode whose entries are a compact table; with any entries it has no
/// other answer.
// promise: A text has one answer in each mode.
pub fn texts_have_one_result()
    ensures exists { ResultIsAResult }
    ensures unique { ResultIsUnique }
{}

/// An input has one list of lines.
pub fn inputs_have_one_list_of_lines()
    ensures exists { InputHasLines }
    ensures unique { LinesAreUnique }
{}

/// The entries of a compact mode are a compact table, as `exists` of [`texts_have_one_result`]
/// asks.
pub fn mode_has_table(mode: &Mode)
    ensures { HasTable mode.now }
{
    match mode {
        Mode::Plain(_) => {}
        Mode::Compact(formatter) => table_is_compact(formatter),
    }
}

/// The output of `run` is one answer for each line of the input and nothing else; the answer to a
/// decimal is its text in the mode. In a compact mode that is the text of the compact number, of
/// all magnitudes, that is nearest to the decimal.
// promise: The output has one answer for each line, and nothing else.
pub fn each_line_has_its_result(mode: &Mode)
    ensures { OutputHasEachResult mode.now }
{
    mode_has_table(mode);
}

/// Lines are answered apart. If the first of two inputs is empty or ends in a line feed, then in
/// every mode the output of both together is the output of the first followed by that of the
/// second. So an input may be cut behind any line feeds and its pieces run apart, in any order and
/// on any machines: their outputs, in the order of the pieces, are the output of the whole.
// promise: Pieces that are cut behind line feeds may be run apart.
pub fn lines_run_apart()
    ensures two { TwoRunApart }
    ensures pieces { PiecesRunApart }
{}
