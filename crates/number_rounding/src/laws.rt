//! What holds of shown numbers: each function does nothing, and its contract is the law.

ghost use Rattle.number_rounding.specs.Laws.{UnitsAreJoined, OneSizeIsShown, ShownIsDivided, ShownIsShowable, ShowableIsShownAsItself};
ghost use Rattle.number_rounding.specs.Laws.{ShownInOrder, NothingShowableIsBetween, HalfModesShowTheNearest, HalfEvenShowsTheEven};
ghost use Rattle.number_rounding.specs.Laws.{DownIsNoMore, UpIsNoLess, FloorIsNoMore, CeilingIsNoLess, ShownMirrored, MagnitudeIsShown};
ghost use Rattle.number_rounding.specs.ShownLaws.{ShownNumberIsOne, ShownNumberIsShownAgain};
ghost use Rattle.number_rounding.specs.Laws.{DefaultShowsCompactNumbers, DefaultIsNearestCompact};

/// Each size has exactly one shown size, for each precision that fits the table, each mode and each
/// sign. It is what division by the unit at the size's own magnitude gives. Rounding once is enough
/// because the power of ten between two magnitudes is a multiple of both their units, or the units
/// are equal. And a number determines the entry and the significand with its digits.
// promise: Each size has one shown size.
// promise: A number determines the entry and the significand.
pub fn one_size_is_shown()
    ensures joined { UnitsAreJoined }
    ensures one { OneSizeIsShown }
    ensures divided { ShownIsDivided }
    ensures number { ShownNumberIsOne }
{}

/// A shown size is showable, and a showable size is shown as itself. So what is shown of a number
/// is shown again, with the same entry and the same significand.
// promise: What is shown is shown again as itself.
pub fn shown_again()
    ensures showable { ShownIsShowable }
    ensures itself { ShowableIsShownAsItself }
    ensures again { ShownNumberIsShownAgain }
{}

/// Of two numbers, with their signs, the lesser is never shown as the greater. Nothing showable
/// lies between a size and what is shown of it.
// promise: The lesser of two numbers never shows the greater one.
// promise: Nothing showable lies between a number and what it shows.
pub fn shown_in_order()
    ensures in_order { ShownInOrder }
    ensures between { NothingShowableIsBetween }
{}

/// By the half modes nothing showable is nearer than what is shown; half to even takes the even one
/// of two equally near.
// promise: Half modes show the nearest showable number.
pub fn nearest_is_shown()
    ensures nearest { HalfModesShowTheNearest }
    ensures even { HalfEvenShowsTheEven }
{}

/// Down never shows a greater size and up never a lesser one. Floor never shows a greater number
/// and ceiling never a lesser one.
// promise: Floor never shows more, and ceiling never less.
pub fn no_more_and_no_less()
    ensures down { DownIsNoMore }
    ensures up { UpIsNoLess }
    ensures floor { FloorIsNoMore }
    ensures ceiling { CeilingIsNoLess }
{}

/// A number and the same with the other sign show the same size by modes that mirror each other:
/// ceiling and floor, their halves, and each other mode and itself.
// promise: A mode shows a minus as its mirrored mode without it.
pub fn shown_mirrored()
    ensures { ShownMirrored }
{}

/// By significant digits, by the finer of both kinds of digits, and without a greatest count, a
/// size other than zero is shown at least as the power of ten of its magnitude.
// promise: Significant digits show nothing but zero as zero.
pub fn magnitude_is_shown()
    ensures { MagnitudeIsShown }
{}

/// By the precision that compact notation has where none is given, the showable sizes are the
/// compact numbers of `icu_decimal`, and half to even shows the nearest of them.
// promise: By default the nearest compact number is shown.
pub fn default_is_nearest_compact()
    ensures showable { DefaultShowsCompactNumbers }
    ensures nearest { DefaultIsNearestCompact }
{}
