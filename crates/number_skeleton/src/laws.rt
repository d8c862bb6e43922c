//! What holds of all skeletons: each function does nothing, and its contract is the law.

ghost use Rattle.number_skeleton.specs.Laws.{CanonicalIsRead, OrderIsNothing, ReadIsReadAgain, CanonicalIsOne};

/// Reading the canonical text of settings gives these settings.
// promise: The canonical text of settings is read as these.
pub fn canonical_is_read()
    ensures { CanonicalIsRead }
{}

/// A text of the same tokens in another order, between other blanks, is read as the same settings.
// promise: The order of tokens means nothing.
pub fn order_is_nothing()
    ensures { OrderIsNothing }
{}

/// What is read of any text may be written, and is read again of its canonical text.
// promise: What is read is read again of its canonical text.
pub fn read_is_read_again()
    ensures { ReadIsReadAgain }
{}

/// Two texts that are read have the same canonical text exactly if they set the same.
// promise: Two texts have one canonical text if they set the same.
pub fn canonical_is_one()
    ensures { CanonicalIsOne }
{}
