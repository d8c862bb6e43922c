//! What holds of all suffixes: each function does nothing, and its contract is the law.

ghost use Rattle.scaled_units.specs.Laws.{SuffixIsReadBack};

/// The suffix that is written of a power is read as that power of the same base.
// promise: A suffix that is written is read as the same power.
pub fn suffix_is_read_back()
    ensures { SuffixIsReadBack }
{}
