//! The tokens that may follow the beginning of a condition.
ghost use Rattle.std.specs.Prelude.{◌≡◌};
ghost use Rattle.icu_plurals_conditions.specs.Reading.{progress_at_operand, progress_after_operand, progress_at_modulus, progress_at_sign};
ghost use Rattle.icu_plurals_conditions.specs.Reading.{progress_at_value, progress_at_end, progress_after_item, progress_after_value, next_progress};
ghost use Rattle.icu_plurals_conditions.specs.Reading.{may_end};

use crate::lexer::Token;

/// What the tokens so far end with, which determines the tokens that may follow.
#[derive(Clone, Copy, PartialEq, Eq)]
pub(crate) enum Progress {
    /// The text begins.
    Nothing,
    /// `and` or `or`.
    Joined,
    /// An operand.
    AfterOperand,
    /// `%`.
    Divided,
    /// A modulus.
    Reduced,
    /// `=`, `!=` or a comma.
    Listed,
    /// A value.
    Valued,
    /// A value and `..`.
    Ranged,
    /// A range.
    Ended,
}

fn at_operand(token: Token) -> Option<Progress>
    ensures { result ≡ progress_at_operand token }
{
    match token {
        Token::Letter(_) => Some(Progress::AfterOperand),
        _ => None,
    }
}

fn after_operand(token: Token) -> Option<Progress>
    ensures { result ≡ progress_after_operand token }
{
    match token {
        Token::Percent => Some(Progress::Divided),
        Token::Equals | Token::NotEquals => Some(Progress::Listed),
        _ => None,
    }
}

fn at_modulus(token: Token) -> Option<Progress>
    ensures { result ≡ progress_at_modulus token }
{
    match token {
        Token::Number(0) => None,
        Token::Number(_) => Some(Progress::Reduced),
        _ => None,
    }
}

fn at_sign(token: Token) -> Option<Progress>
    ensures { result ≡ progress_at_sign token }
{
    match token {
        Token::Equals | Token::NotEquals => Some(Progress::Listed),
        _ => None,
    }
}

fn at_value(token: Token) -> Option<Progress>
    ensures { result ≡ progress_at_value token }
{
    match token {
        Token::Number(_) => Some(Progress::Valued),
        _ => None,
    }
}

fn at_end(token: Token) -> Option<Progress>
    ensures { result ≡ progress_at_end token }
{
    match token {
        Token::Number(_) => Some(Progress::Ended),
        _ => None,
    }
}

fn after_item(token: Token) -> Option<Progress>
    ensures { result ≡ progress_after_item token }
{
    match token {
        Token::Comma => Some(Progress::Listed),
        Token::And | Token::Or => Some(Progress::Joined),
        _ => None,
    }
}

fn after_value(token: Token) -> Option<Progress>
    ensures { result ≡ progress_after_value token }
{
    match token {
        Token::Dots => Some(Progress::Ranged),
        other => after_item(other),
    }
}

impl Progress {
    /// The progress after a token, or none if the token may not follow.
    pub(crate) fn next(self, token: Token) -> Option<Progress>
        ensures { result ≡ next_progress self token }
    {
        match self {
            Progress::Nothing | Progress::Joined => at_operand(token),
            Progress::AfterOperand => after_operand(token),
            Progress::Divided => at_modulus(token),
            Progress::Reduced => at_sign(token),
            Progress::Listed => at_value(token),
            Progress::Valued => after_value(token),
            Progress::Ranged => at_end(token),
            Progress::Ended => after_item(token),
        }
    }

    /// Whether the text may end here.
    pub(crate) fn may_end(self) -> bool
        ensures { result ≡ may_end self }
    {
        matches!(self, Progress::Nothing | Progress::Valued | Progress::Ended)
    }
}
