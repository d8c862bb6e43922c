//! What the text of a range determines. The functions do nothing: each is its contract.

ghost use Rattle.icu_ranges_readable.specs.RangeLaws.{AmountRangeTextTellsBothEnds, EqualAmountRangeTextsTell};
ghost use Rattle.icu_ranges_readable.specs.RangeLaws.{EqualRangeTextsTell, RangeTextTellsBothEnds};

/// If ranges are readable, equal texts mean equal ranges: both starts and both ends are equal, in
/// sign, range and every digit. This holds for texts as lists of characters, and for those that
/// `write_to_string` returns. It holds for texts with the approximately sign too, such as `~3`, if no
/// digit stands in that sign.
// promise: If readable, equal texts of ranges mean equal ends.
pub fn range_text_tells_both_ends()
    ensures characters { RangeTextTellsBothEnds }
    ensures texts { EqualRangeTextsTell }
{}

/// If ranges of money or of percents over a plain formatter are readable, equal texts mean equal
/// ranges, as for plain numbers. What stands around both ends may be written once or twice. No text
/// has the approximately sign here.
// promise: If readable, equal texts of amounts mean equal ends.
pub fn amount_range_text_tells_both_ends()
    ensures characters { AmountRangeTextTellsBothEnds }
    ensures texts { EqualAmountRangeTextsTell }
{}
