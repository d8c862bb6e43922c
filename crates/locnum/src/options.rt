//! The table of options: names, letters, texts, headings, and what each does.

/// What stands behind the name of an option.
#[derive(Clone, Copy)]
pub(crate) enum Takes {
    /// Nothing: the option is given, or it isn't.
    Nothing,
    /// A text, which has this name.
    Text(&'static str),
    /// A text of this name behind `=`; without one the option has the other text.
    Perhaps(&'static str, &'static str),
}

/// An option of the program.
#[derive(Clone, Copy)]
pub(crate) struct OptionEntry {
    /// The heading under which `--help` shows it.
    pub(crate) heading: &'static str,
    /// The name behind `--`.
    pub(crate) name: &'static str,
    /// The letter behind `-`.
    pub(crate) letter: Option<char>,
    /// What stands behind it.
    pub(crate) takes: Takes,
    /// What it does.
    pub(crate) help: &'static str,
}

/// The heading of tables and locales.
const LOCALE: &str = "Locale";

/// The heading of what is written of a number.
const NUMBERS: &str = "Numbers";

/// The heading of messages.
const MESSAGES: &str = "Messages";

/// The heading of lines and their fields.
const LINES: &str = "Lines";

/// The heading of what the program does besides.
pub(crate) const PROGRAM: &str = "Program";

/// The options, in the order of `--help`.
pub(crate) const OPTIONS: [OptionEntry; 33] = [
    OptionEntry {
        heading: LOCALE,
        name: "tables",
        letter: Some('t'),
        takes: Takes::Text("FILE"),
        help: "tables of locales, or a folder of tables; else English",
    },
    OptionEntry {
        heading: LOCALE,
        name: "locale",
        letter: Some('l'),
        takes: Takes::Text("LOCALE"),
        help: "such as de or pt-BR; env: that of the environment",
    },
    OptionEntry {
        heading: LOCALE,
        name: "system",
        letter: None,
        takes: Takes::Text("NU"),
        help: "the numbering system, such as latn",
    },
    OptionEntry {
        heading: LOCALE,
        name: "list",
        letter: None,
        takes: Takes::Text("WHAT"),
        help: "print the locales, systems, currencies or units",
    },
    OptionEntry {
        heading: NUMBERS,
        name: "style",
        letter: None,
        takes: Takes::Text("STYLE"),
        help: "plain, short or long; amounts plain or short",
    },
    OptionEntry {
        heading: NUMBERS,
        name: "currency",
        letter: None,
        takes: Takes::Text("CODE"),
        help: "amounts of a currency, such as EUR",
    },
    OptionEntry {
        heading: NUMBERS,
        name: "accounting",
        letter: None,
        takes: Takes::Nothing,
        help: "amounts as in accounts, as ($1.00)",
    },
    OptionEntry {
        heading: NUMBERS,
        name: "cash",
        letter: None,
        takes: Takes::Nothing,
        help: "amounts as in cash, 1.13 francs as CHF 1.15",
    },
    OptionEntry {
        heading: NUMBERS,
        name: "unit",
        letter: None,
        takes: Takes::Text("NAME"),
        help: "a unit of the tables, such as kilometer",
    },
    OptionEntry {
        heading: NUMBERS,
        name: "width",
        letter: None,
        takes: Takes::Text("WIDTH"),
        help: "short, narrow, code, hidden, name or long",
    },
    OptionEntry {
        heading: NUMBERS,
        name: "percent",
        letter: None,
        takes: Takes::Nothing,
        help: "numbers as percents, 0.5 as 50%",
    },
    OptionEntry {
        heading: NUMBERS,
        name: "permille",
        letter: None,
        takes: Takes::Nothing,
        help: "numbers as permilles, 0.5 as 500‰",
    },
    OptionEntry {
        heading: NUMBERS,
        name: "fraction",
        letter: None,
        takes: Takes::Text("N|MIN..MAX"),
        help: "how many fraction digits",
    },
    OptionEntry {
        heading: NUMBERS,
        name: "significant",
        letter: None,
        takes: Takes::Text("N|MIN..MAX"),
        help: "how many significant digits",
    },
    OptionEntry {
        heading: NUMBERS,
        name: "increment",
        letter: None,
        takes: Takes::Text("N"),
        help: "multiples of N, such as 0.05 or 1000",
    },
    OptionEntry {
        heading: NUMBERS,
        name: "integer",
        letter: None,
        takes: Takes::Text("N"),
        help: "N digits before the fraction at least",
    },
    OptionEntry {
        heading: NUMBERS,
        name: "scale",
        letter: None,
        takes: Takes::Text("N"),
        help: "multiplies by a power of ten: 100 or 0.01",
    },
    OptionEntry {
        heading: NUMBERS,
        name: "round",
        letter: None,
        takes: Takes::Text("MODE"),
        help: "half-even or (half-)up, down, ceiling, floor",
    },
    OptionEntry {
        heading: NUMBERS,
        name: "grouping",
        letter: None,
        takes: Takes::Perhaps("WHEN", "auto"),
        help: "auto, never, always or min2; auto without WHEN",
    },
    OptionEntry {
        heading: NUMBERS,
        name: "sign",
        letter: None,
        takes: Takes::Text("WHEN"),
        help: "auto, always, never, except-zero or negative",
    },
    OptionEntry {
        heading: NUMBERS,
        name: "skeleton",
        letter: None,
        takes: Takes::Text("TEXT"),
        help: "a number skeleton instead, as 'K currency/EUR'",
    },
    OptionEntry {
        heading: MESSAGES,
        name: "message",
        letter: None,
        takes: Takes::Text("TEXT"),
        help: "a message for each number n, as '{n, plural, other{#}}'",
    },
    OptionEntry {
        heading: MESSAGES,
        name: "messages",
        letter: None,
        takes: Takes::Text("FILE"),
        help: "a catalogue of messages (JSON)",
    },
    OptionEntry {
        heading: MESSAGES,
        name: "id",
        letter: None,
        takes: Takes::Text("ID"),
        help: "the message of the catalogue",
    },
    OptionEntry {
        heading: LINES,
        name: "delimiter",
        letter: Some('d'),
        takes: Takes::Text("C"),
        help: "the byte between fields, instead of blanks",
    },
    OptionEntry {
        heading: LINES,
        name: "csv",
        letter: None,
        takes: Takes::Nothing,
        help: "records of CSV, with commas unless -d says another byte",
    },
    OptionEntry {
        heading: LINES,
        name: "field",
        letter: None,
        takes: Takes::Text("LIST"),
        help: "the numbers: 2, 2-4, 1,3- or -, or names of --header",
    },
    OptionEntry {
        heading: LINES,
        name: "range",
        letter: None,
        takes: Takes::Text("N,M"),
        help: "ranges from field N to field M, in place of field N",
    },
    OptionEntry {
        heading: LINES,
        name: "header",
        letter: None,
        takes: Takes::Perhaps("N", "1"),
        help: "N lines in front go through, 1 without N",
    },
    OptionEntry {
        heading: LINES,
        name: "zero-terminated",
        letter: Some('z'),
        takes: Takes::Nothing,
        help: "lines end in NUL instead of a line feed",
    },
    OptionEntry {
        heading: LINES,
        name: "padding",
        letter: None,
        takes: Takes::Text("N"),
        help: "N columns at least, behind spaces; -N: before them",
    },
    OptionEntry {
        heading: LINES,
        name: "invalid",
        letter: None,
        takes: Takes::Text("MODE"),
        help: "texts that are no numbers: abort, fail, warn or ignore",
    },
    OptionEntry {
        heading: PROGRAM,
        name: "explain",
        letter: None,
        takes: Takes::Nothing,
        help: "each number with its parts, and why it is written so",
    },
];
