//! What the values around a compact number are: a law, which is proved once.

ghost use Rattle.locnum_explain.specs.Showable.{NothingBetween};

/// No compact number stands between the two values around a size that are shown at its magnitude:
/// the greatest multiple of its unit that is at most the size, and the next one.
// promise: No compact number stands between the two values around one.
pub fn nothing_is_shown_between()
    ensures { NothingBetween }
{}
