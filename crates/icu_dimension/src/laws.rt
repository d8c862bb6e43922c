//! What holds of all numbers. The functions do nothing: each is its contract.

ghost use Rattle.icu_dimension.specs.MoneyLaws.{EqualMoneyTextsTell, EqualMoneyTextsTellAround, EqualPercentTextsTell, MoneyTextTells};
ghost use Rattle.icu_dimension.specs.MoneyLaws.{MoneyTextTellsAround, NoDigitStandsAround, PercentTextTells};
ghost use Rattle.icu_dimension.specs.PercentLaws.{HundredfoldIsAHundredTimes, HundredfoldHasNoFirstZero};
ghost use Rattle.icu_dimension.specs.SymbolLaws.{EqualMoneyTextsOfOneSignTellSymbol, EqualMoneyTextsTellSymbol};
ghost use Rattle.icu_dimension.specs.SymbolLaws.{MoneyTextOfOneSignTellsSymbol, MoneyTextTellsSymbol};
ghost use Rattle.icu_dimension.specs.SymbolLaws.{MoneyThatTellsSymbolsIsReadable};
ghost use Rattle.icu_dimension.specs.ToldApart.{ToldApartShareNoCharacters, ToldApartShareNoText};
ghost use Rattle.icu_dimension.specs.UnitPatterns.{UnitKeepsCharacters};

/// What is shown as a percent is a hundred times as large as the number, exactly.
// promise: `hundredfold` is exactly a hundred times the number.
pub fn a_percent_is_a_hundred_times_the_number()
    ensures { HundredfoldIsAHundredTimes }
{}

/// A hundred times a number has no leading zero, except at power 0.
pub fn a_percent_has_no_zero_at_its_front()
    ensures { HundredfoldHasNoFirstZero }
{}

/// If money by a plain formatter is readable, equal texts mean equal amounts: in sign, range and
/// every digit. In the patterns of two currencies, or of two locales, over the same readable
/// numbers, equal texts mean equal digits and range, and the same characters before the number and
/// after it, if none of the ten digits stands there. None does in the patterns that
/// `CldrPattern::resolve` makes, if neither the symbol nor a minus, plus or percent sign nor the
/// pattern's own characters have one, and U+00A0 isn't one. What stands there counts as a whole:
/// U+00A0 may stand beside one symbol and be part of another.
/// [`money_text_tells_the_symbol`] says when the symbol is determined, too.
///
/// Texts are compared as lists of characters, and as `write_to_string` returns them.
// promise: If readable, equal texts of money mean equal amounts.
pub fn money_text_tells()
    ensures characters { MoneyTextTells }
    ensures texts { EqualMoneyTextsTell }
    ensures characters_around { MoneyTextTellsAround }
    ensures texts_around { EqualMoneyTextsTellAround }
    ensures free { NoDigitStandsAround }
{}

/// Money in two currencies, by one plain formatter whose numbers are readable, in one pattern and
/// with the same signs: equal texts mean equal sign, range, digits and symbol, under the premises
/// `TellsSymbols` of the pattern and `IsDistinctSymbol` of both symbols.
///
/// | premise | what is untold without it |
/// |---|---|
/// | each subpattern has the symbol's place | by `0` the symbol |
/// | no symbol begins or ends with U+00A0 | in `A\u{a0}1` whether it is `A` or `A\u{a0}` |
/// | marks, as `-`, `+` and `(`, determine the sign if no symbol is written | by `¤0;¤0` the minus |
/// | no symbol has a mark | in `-$1` whether it is 1 of `-$` or -1 of `$` |
/// | U+00A0 is no mark, and no digit | by `¤0;¤\u{a0}0` the minus of `CHF\u{a0}1` |
/// | symbols, signs and pattern have no digit | in `$1\u{a0}234` if 234 of `$1` or 1234 of `$` |
///
/// Between amounts of one sign no marks are asked for. Money that determines its symbol is
/// readable.
///
/// Texts are compared as lists of characters, and as `write_to_string` returns them; then the
/// symbols are equal byte for byte.
// promise: Under its premises a text determines symbol and amount.
pub fn money_text_tells_the_symbol()
    ensures characters { MoneyTextTellsSymbol }
    ensures texts { EqualMoneyTextsTellSymbol }
    ensures one_sign { MoneyTextOfOneSignTellsSymbol }
    ensures one_sign_texts { EqualMoneyTextsOfOneSignTellSymbol }
    ensures readable { MoneyThatTellsSymbolsIsReadable }
{}

/// If percents by a plain formatter are readable, as money is, equal texts mean equal signs and
/// sizes, and a hundred times the numbers in the same range and digits.
// promise: If readable, equal texts of percents mean equal sizes.
pub fn percent_text_tells()
    ensures characters { PercentTextTells }
    ensures texts { EqualPercentTextsTell }
{}

/// If two formatters of money are distinguished ([`is_told_apart_from`]), no text of the one is a
/// text of the other, whatever the amounts are: a text shows which of the two wrote it.
///
/// [`is_told_apart_from`]: crate::CurrencyFormatter::is_told_apart_from
// promise: Formatters of which `AreToldApart` holds share no text.
pub fn told_apart_share_no_text()
    ensures characters { ToldApartShareNoCharacters }
    ensures texts { ToldApartShareNoText }
{}

/// A unit's pattern writes the characters of its literal around a number, white space too: the part
/// `unit` adds none and leaves none out. So laws of a pattern's characters hold of a unit's.
// promise: The part of a unit changes no character.
pub fn the_part_of_a_unit_changes_no_character()
    ensures { UnitKeepsCharacters }
{}
