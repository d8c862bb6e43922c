//! Numbers as a formatter wrote them.

ghost use Rattle.std.specs.Prelude.{◌≡◌, ◌++◌, ◌∷◌, [], decimal, Option, None, Some, IfOk, IsOkUnless};
ghost use Rattle.icu_message.specs.Numbers.{exact_key};

use icu_decimal::error::FormatError;
use icu_plurals::PluralOperands;
use itoa::Buffer;
use std::alloc::{AllocError, Global};
use std::marker::Model;

/// A number as a formatter wrote it: its text, the plural operands of what the text shows, and the
/// whole number that it is, if it is one.
///
/// Operands and text come from one formatter, so the arm that a message picks goes by what is
/// shown, as with `1.00` and `1M`.
#[derive(Drop)]
pub struct ShownNumber {
    text: Vec<u8>,
    operands: PluralOperands,
    whole: Option<u64>,
    exact: Vec<u8>,
}

impl Model for ShownNumber {
    ghost use Rattle.std.specs.Prelude.{◌≡◌};
    ghost use Rattle.icu_message.specs.Numbers.{Number, exact_key};

    ghost Value = { Number };

    ghost view = { λ n. record {
      text = n.text.items;
      operands = n.operands;
      whole = n.whole;
    } };

    ghost invariant = { λ n. n.exact.items ≡ exact_key n.whole };
}

/// The key `=` of a whole number; nothing without one.
fn exact_key(alloc: Global, whole: Option<u64>) -> Result<Vec<u8>, AllocError>
    ensures { IfOk result (λ k. k.items ≡ exact_key whole) }
{
    let mut key = Vec::new(alloc);
    if let Some(value) = whole {
        let mut buffer = Buffer::new();
        key.push(b'=')?;
        key.extend_from_slice(buffer.format(value).as_bytes())?;
    }
    Ok(key)
}

impl ShownNumber {
    /// A number by its parts: its text, the plural operands of what the text shows, and the whole
    /// number from 0 to 10^18 - 1 that the number is, if it is one.
    // promise: The number has the given text, operands and whole number.
    // mutations: shown_whole_number_without_its_key
    pub fn new(
        alloc: Global,
        text: &str,
        operands: PluralOperands,
        whole: Option<u64>,
    ) -> Result<Self, AllocError>
        ensures { IfOk result (λ n. n ≡ record {
          text = text.now;
          operands = operands;
          whole = whole;
        }) }
    {
        Ok(ShownNumber {
            text: Vec::from_slice(alloc, text.as_bytes())?,
            operands,
            whole,
            exact: exact_key(alloc, whole)?,
        })
    }

    /// A number by its parts, whose text is the given bytes.
    pub(crate) fn of_bytes(
        alloc: Global,
        text: Vec<u8>,
        operands: PluralOperands,
        whole: Option<u64>,
    ) -> Result<Self, FormatError>
        ensures made { IfOk result (λ n. n ≡ record {
          text = text.items;
          operands = operands;
          whole = whole;
        }) }
        ensures memory { IsOkUnless result FormatError.OutOfMemory }
    {
        match exact_key(alloc, whole) {
            Ok(exact) => Ok(ShownNumber {
                text,
                operands,
                whole,
                exact,
            }),
            Err(_) => Err(FormatError::OutOfMemory),
        }
    }

    /// The text of the number, in UTF-8.
    pub fn text(&self) -> &[u8]
        ensures { result.now ≡ self.now.text }
    {
        &self.text
    }

    /// The plural operands of what the text shows.
    pub fn operands(&self) -> PluralOperands
        ensures { result ≡ self.now.operands }
    {
        self.operands
    }

    /// The whole number that the number is, if it is one.
    pub fn whole(&self) -> Option<u64>
        ensures { result ≡ self.now.whole }
    {
        self.whole
    }

    /// The key `=` of the whole number; nothing without one.
    pub(crate) fn exact(&self) -> &[u8]
        ensures { result.now ≡ exact_key self.now.whole }
    {
        &self.exact
    }
}
