//! What holds of all sizes, texts and decimals: each function does nothing, and its contract is the
//! law.

ghost use Rattle.std.specs.Prelude.{◌≡◌, ◌↔◌, IsTrue};
ghost use Rattle.fixed_decimal.specs.Laws.{MagnitudeIsReached, MagnitudeIsGreatest, MagnitudeIsUnique, MagnitudeIsMonotone, MagnitudeOfZero};
ghost use Rattle.fixed_decimal.specs.Laws.{SomeMultipleIsNearest, OneMultipleIsNearest, TextReadsOneDecimal, ReadingIsSpelled, ReadingOfNothing};
ghost use Rattle.fixed_decimal.specs.ModeLaws.{MultiplesAreTakenInOrder, OneMultipleIsTaken, MultipleIsTakenAsItself};
ghost use Rattle.fixed_decimal.specs.ModeLaws.{TakenIsDivided, HalfEvenIsNearest, NoMultipleIsBetween, HalfModesTakeTheNearest};
ghost use Rattle.fixed_decimal.specs.ModeLaws.{HalfUpIsTheGreater, HalfDownIsTheLesser, UpIsNoLess, DownIsNoMore, CeilingMirrorsFloor};

use crate::{Decimal, UnsignedDecimal};

/// The magnitude of a size is the greatest place whose power of ten is at most the size; for zero,
/// the place of power 0.
// promise: The magnitude is the greatest power of ten in a size.
pub fn magnitude_is_the_greatest_power()
    ensures reached { MagnitudeIsReached }
    ensures greatest { MagnitudeIsGreatest }
    ensures unique { MagnitudeIsUnique }
    ensures monotone { MagnitudeIsMonotone }
    ensures zero { MagnitudeOfZero }
{}

/// Each size has one nearest multiple of a unit, the even one of two equally near.
// promise: Each size has one nearest multiple of a unit.
pub fn nearest_multiple_is_unique()
    ensures some { SomeMultipleIsNearest }
    ensures one { OneMultipleIsNearest }
{}

/// Every rounding mode takes one multiple of a unit, that which division gives; a multiple is taken
/// as itself.
// promise: A mode takes one multiple, that which division gives.
pub fn modes_take_one_multiple()
    ensures one { OneMultipleIsTaken }
    ensures divided { TakenIsDivided }
    ensures itself { MultipleIsTakenAsItself }
{}

/// Rounding keeps the order of sizes, and no multiple lies between a size and what is taken of it.
// promise: Rounding keeps the order of numbers.
pub fn modes_keep_order()
    ensures in_order { MultiplesAreTakenInOrder }
    ensures between { NoMultipleIsBetween }
{}

/// The half modes take a nearest multiple, and of two equally near the greater, the lesser or the
/// even one.
// promise: The half modes take a nearest multiple.
pub fn half_modes_take_the_nearest()
    ensures nearest { HalfModesTakeTheNearest }
    ensures greater { HalfUpIsTheGreater }
    ensures lesser { HalfDownIsTheLesser }
    ensures even { HalfEvenIsNearest }
{}

/// Up takes no lesser size and down no greater one; ceiling of a number is floor of the same with
/// the other sign.
// promise: Ceiling of a number is floor of it with the other sign.
pub fn ceiling_mirrors_floor()
    ensures no_less { UpIsNoLess }
    ensures no_more { DownIsNoMore }
    ensures mirror { CeilingMirrorsFloor }
{}

/// A text is read as one decimal at most.
// promise: A text spells one sign and one number at most.
pub fn text_reads_one_decimal()
    ensures { TextReadsOneDecimal }
{}

/// `reading` computes the sign and the number that a text spells.
// promise: What is computed of a text is what the text spells.
pub fn reading_is_what_is_spelled()
    ensures spelled { ReadingIsSpelled }
    ensures nothing { ReadingOfNothing }
{}

/// Two decimals are equal exactly where sign, written range and digits are the same.
// promise: Decimals are equal exactly if sign, range and digits are.
pub fn equality_is_of_sign_range_and_digits()
    ensures unsigned { (a b : _) → IsTrue (⟦<UnsignedDecimal as PartialEq>⟧.eq a b) ↔ (a ≡ b) }
    ensures signed { (a b : _) → IsTrue (⟦<Decimal as PartialEq>⟧.eq a b) ↔ (a ≡ b) }
{}
