//! Laws of messages.

ghost use Rattle.std.specs.Prelude.{◌≡◌, ℕ, Bool, false, List};
ghost use Rattle.fixed_decimal.specs.Unsigned.{Unsigned};
ghost use Rattle.icu_decimal_interface.specs.Shown.{Shown};
ghost use Rattle.icu_message.specs.Categories.{GoesByWhatIsShown};
ghost use Rattle.icu_message.specs.Paths.{ArgumentsAreNoSyntax};
ghost use Rattle.icu_message.specs.Places.{NumberStandsOnce};
ghost use Rattle.icu_message.specs.Spelling.{ReadIsNormal, SpellingIsRead};
ghost use Rattle.icu_message.specs.Trees.{OneArm, ReadIsTree, WrittenByTrees};

use icu_decimal_interface::AbstractFormatter;

/// Reading the spelling of a message gives the message, if the spelling isn't too long.
// promise: A message's spelling is read as that message.
pub fn spelling_is_read()
    ensures { SpellingIsRead }
{}

/// Each message that is read is normal, so its spelling is read as itself.
// promise: Each message that is read has a spelling.
pub fn read_is_normal()
    ensures { ReadIsNormal }
{}

/// The pieces of each text that is read are those of a tree of messages and choices.
// promise: Each message that is read is a tree of choices.
pub fn read_is_tree()
    ensures { ReadIsTree }
{}

/// In the tree of each text that is read, each choice has exactly one arm with the key that is
/// picked, whatever the rules and the arguments are.
// promise: Of each choice exactly one arm is picked.
pub fn one_arm()
    ensures { OneArm }
{}

/// What is written of a message is what its tree says: of each choice the arm that is picked, and
/// nothing of its other arms.
// promise: Of a choice the picked arm is written, and no other.
pub fn written_by_trees()
    ensures { WrittenByTrees }
{}

/// A message is written as a list of its own bytes and of places, which depends on the arguments
/// only by the arms that are picked; in places stand the arguments as they are. So no argument is
/// read as syntax.
// promise: What an argument writes is never read as syntax.
pub fn arguments_are_no_syntax()
    ensures { ArgumentsAreNoSyntax }
{}

/// Where each arm that can be picked has one place of an argument (`Message::places_of`), the
/// argument stands once in what is written, as the formatter wrote it, whatever the rules and the
/// arguments are.
// promise: A number with one place in each arm is written once.
pub fn number_stands_once()
    ensures { NumberStandsOnce }
{}

/// The arm goes by what is shown: for each formatter and each number, all numbers that are made of
/// it by `ShownNumber::of` pick the arm of the category of what the formatter shows, where no arm
/// has the key `=` of the whole number.
// promise: The arm is that of the category of what is shown.
pub fn category_of_what_is_shown<F: AbstractFormatter>()
    ensures { (formatter : F) (value : Unsigned) (s : Shown) → F.shows formatter value s →
        GoesByWhatIsShown s }
{}
