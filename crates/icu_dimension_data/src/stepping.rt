//! Reading one character of a pattern: what it adds, and what may follow.

ghost use Rattle.std.specs.Prelude.{◌≡◌};
ghost use Rattle.icu_dimension_data.specs.Stepping.{start, kind_of, section_after, with_token, silent, separated};
ghost use Rattle.icu_dimension_data.specs.Stepping.{with_number, with_symbol, unquoted_step, step, end_fault};

use crate::affix_token::AffixToken;
use crate::error::PatternFault;

/// Whether the next character is quoted.
#[derive(Clone, Copy)]
pub(crate) enum Quoting {
    /// No quote is open.
    Outside,
    /// No quote is open, and the character before is `¤`.
    AfterSymbol,
    /// A quote was opened at this byte, and nothing stands in it yet.
    Opened(usize),
    /// Characters stand in the quote that was opened at this byte.
    Inside(usize),
    /// The character before is an apostrophe in the quote that was opened at this byte: its end, or
    /// the first half of one.
    Ended(usize),
}

/// Which section of a subpattern is read.
#[derive(Clone, Copy)]
pub(crate) enum Section {
    /// Before its number part.
    Before,
    /// In its number part.
    Number,
    /// Behind its number part.
    After,
}

/// How far a pattern was read.
#[derive(Clone, Copy)]
pub(crate) struct State {
    pub(crate) quoting: Quoting,
    pub(crate) section: Section,
    pub(crate) in_second: bool,
}

/// What a character adds to the pattern.
#[derive(Clone, Copy)]
pub(crate) enum Added {
    Nothing,
    Token(AffixToken),
    Subpattern,
}

/// The result of reading one character.
#[derive(Clone, Copy)]
pub(crate) struct Step {
    pub(crate) state: State,
    pub(crate) added: Added,
}

/// What an unquoted character is.
#[derive(Clone, Copy)]
enum Kind {
    Quote,
    Separator,
    Number,
    Symbol,
    Token(AffixToken),
    Reserved,
}

fn kind_of(character: char) -> Kind
    ensures { result ≡ kind_of character }
{
    match character {
        '\'' => Kind::Quote,
        ';' => Kind::Separator,
        '#' | '0' | ',' | '.' => Kind::Number,
        '¤' => Kind::Symbol,
        '-' => Kind::Token(AffixToken::MinusSign),
        '+' => Kind::Token(AffixToken::PlusSign),
        '%' => Kind::Token(AffixToken::PercentSign),
        '1'..='9' | '@' | 'E' | '*' | '‰' => Kind::Reserved,
        _ => Kind::Token(AffixToken::Character(character)),
    }
}

impl Section {
    /// The section behind a token.
    fn after_token(self) -> Section
        ensures { result ≡ section_after self }
    {
        match self {
            Section::Before => Section::Before,
            Section::Number | Section::After => Section::After,
        }
    }
}

impl State {
    /// The state before the first character.
    pub(crate) fn start() -> State
        ensures { result ≡ start }
    {
        State {
            quoting: Quoting::Outside,
            section: Section::Before,
            in_second: false,
        }
    }

    fn with_token(self, quoting: Quoting, token: AffixToken) -> Step
        ensures { result ≡ with_token self quoting token }
    {
        Step {
            state: State {
                quoting,
                section: self.section.after_token(),
                in_second: self.in_second,
            },
            added: Added::Token(token),
        }
    }

    fn silent(self, quoting: Quoting) -> Step
        ensures { result ≡ silent self quoting }
    {
        Step {
            state: State { quoting, ..self },
            added: Added::Nothing,
        }
    }

    fn separated(self, at: usize) -> Result<Step, PatternFault>
        ensures { result ≡ separated self at }
    {
        if let Section::Before = self.section {
            return Err(PatternFault::NoNumber { byte: at });
        }
        if self.in_second {
            return Err(PatternFault::ThirdSubpattern { byte: at });
        }
        Ok(Step {
            state: State {
                quoting: Quoting::Outside,
                section: Section::Before,
                in_second: true,
            },
            added: Added::Subpattern,
        })
    }

    fn with_number(self, at: usize) -> Result<Step, PatternFault>
        ensures { result ≡ with_number self at }
    {
        match self.section {
            Section::Before | Section::Number => Ok(Step {
                state: State {
                    quoting: Quoting::Outside,
                    section: Section::Number,
                    in_second: self.in_second,
                },
                added: Added::Nothing,
            }),
            Section::After => Err(PatternFault::TwoNumbers { byte: at }),
        }
    }

    fn with_symbol(self, at: usize) -> Result<Step, PatternFault>
        ensures { result ≡ with_symbol self at }
    {
        if let Quoting::AfterSymbol = self.quoting {
            return Err(PatternFault::Reserved { byte: at });
        }
        Ok(self.with_token(Quoting::AfterSymbol, AffixToken::CurrencySymbol))
    }

    fn unquoted(self, at: usize, character: char) -> Result<Step, PatternFault>
        ensures { result ≡ unquoted_step self at (kind_of character) }
    {
        match kind_of(character) {
            Kind::Quote => Ok(self.silent(Quoting::Opened(at))),
            Kind::Separator => self.separated(at),
            Kind::Number => self.with_number(at),
            Kind::Symbol => self.with_symbol(at),
            Kind::Token(token) => Ok(self.with_token(Quoting::Outside, token)),
            Kind::Reserved => Err(PatternFault::Reserved { byte: at }),
        }
    }

    /// Reads the character at a byte offset.
    pub(crate) fn step(self, at: usize, character: char) -> Result<Step, PatternFault>
        ensures { result ≡ step self at character }
    {
        let token = AffixToken::Character(character);
        let is_quote = character == '\'';
        match self.quoting {
            Quoting::Outside | Quoting::AfterSymbol => self.unquoted(at, character),
            Quoting::Opened(_) if is_quote => Ok(self.with_token(Quoting::Outside, token)),
            Quoting::Opened(opening) => Ok(self.with_token(Quoting::Inside(opening), token)),
            Quoting::Inside(opening) if is_quote => Ok(self.silent(Quoting::Ended(opening))),
            Quoting::Inside(opening) => Ok(self.with_token(Quoting::Inside(opening), token)),
            Quoting::Ended(opening) if is_quote => Ok(self.with_token(
                Quoting::Inside(opening),
                token,
            )),
            Quoting::Ended(_) => self.unquoted(at, character),
        }
    }

    /// The fault of a text that ends at this byte offset, if it may not end there.
    pub(crate) fn end_fault(self, end: usize) -> Option<PatternFault>
        ensures { result ≡ end_fault self end }
    {
        match (self.quoting, self.section) {
            (Quoting::Opened(opening) | Quoting::Inside(opening), _) => {
                Some(PatternFault::UnclosedQuote { byte: opening })
            }
            (_, Section::Before) => Some(PatternFault::NoNumber { byte: end }),
            _ => None,
        }
    }
}
