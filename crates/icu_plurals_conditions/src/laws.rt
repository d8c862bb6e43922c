//! Laws of all texts of conditions. The functions do nothing: each is its contract.
ghost use Rattle.icu_plurals_conditions.specs.ConditionLaws.{EachTextIsJudged, NoTextIsJudgedTwice, FirstFaultsAreUnique, ConditionsAreUnique};
ghost use Rattle.icu_plurals_conditions.specs.ConditionLaws.{ReadingIsSpelled, RefusalIsFirstFault};

/// Each text spells a condition or has a first fault, and no text does both.
// promise: Each text spells a condition or has a fault, and not both.
pub fn each_text_is_judged_once()
    ensures judged { EachTextIsJudged }
    ensures once { NoTextIsJudgedTwice }
{}

/// A text has at most one first fault.
pub fn first_faults_are_unique()
    ensures { FirstFaultsAreUnique }
{}

/// A text spells at most one condition.
// promise: A text spells one condition at most.
pub fn conditions_are_unique()
    ensures { ConditionsAreUnique }
{}

/// Reading a text gives the condition that it spells, or else its first fault.
// promise: What is computed is the condition, or the first fault.
pub fn reading_is_what_is_spelled()
    ensures spelled { ReadingIsSpelled }
    ensures refused { RefusalIsFirstFault }
{}
