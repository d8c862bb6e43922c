//! What holds of all operands and of all texts of conditions. The functions do nothing: each is its
//! contract.
ghost use Rattle.icu_plurals.specs.Laws.{MovingThePointMultiplies, ExactlyIsTheNumber};
ghost use Rattle.icu_plurals.specs.Elements.{SelectedSlotHoldsTheSelected};
ghost use Rattle.icu_plurals.specs.ConditionLaws.{TurnedRangesAreEmpty};

pub use icu_plurals_conditions::laws::{
    conditions_are_unique, each_text_is_judged_once, first_faults_are_unique,
    reading_is_what_is_spelled,
};

/// A range whose first value is greater than its last holds nothing.
pub fn turned_ranges_are_empty()
    ensures { TurnedRangesAreEmpty }
{}

/// The integer digits after the point is moved are those of the number times ten to the exponent.
// promise: Moving the point multiplies by the power of ten.
#[tactic(auto, using(crate::proofs::MovedPoint::moving_the_point_multiplies))]
pub fn moving_the_point_multiplies()
    ensures { MovingThePointMultiplies }
{}

/// A number that is exactly n by its operands is the number n.
// promise: A number that is exactly n by its operands is n.
#[tactic(auto, using(crate::proofs::MovedPoint::exactly_is_the_number))]
pub fn exactly_is_the_number()
    ensures { ExactlyIsTheNumber }
{}

/// The slot that is selected by which slots are present holds the selected value. It is stated for
/// values that are texts.
// promise: The slot of a number holds the value that `get` answers.
#[tactic(auto, using(crate::proofs::SelectedSlots::selected_slot_holds))]
pub fn the_selected_slot_holds_the_selected_value()
    ensures { SelectedSlotHoldsTheSelected }
{}
