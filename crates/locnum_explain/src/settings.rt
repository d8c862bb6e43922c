//! What is known of explanations besides the form.

/// What says which digits are written (this project's own).
#[derive(Clone, Copy, Debug)]
pub enum DigitsBy<'a> {
    /// An option, with its text: `--fraction 2`, `--significant 3`, `--increment 0.05`.
    Option {
        /// The name of the option, without the two dashes.
        name: &'a str,
        /// The text of the option.
        text: &'a str,
    },
    /// A currency, by its code.
    Currency(&'a str),
    /// A currency in cash, by its code.
    Cash(&'a str),
    /// The style: compact numbers have no fraction digit, or two significant digits.
    Compact,
    /// Nothing: the digits are as they are given.
    Given,
}

/// How numbers are explained, besides the form (this project's own).
#[derive(Clone, Copy, Debug)]
pub struct Settings<'a> {
    /// How many columns a line of parts has at most.
    pub width: usize,
    /// What says which digits are written.
    pub digits: DigitsBy<'a>,
    /// The text of the option `--round`, if it is given.
    pub mode: Option<&'a str>,
}
