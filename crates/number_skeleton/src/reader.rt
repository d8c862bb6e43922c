//! Reading a text token by token.

ghost use Rattle.std.specs.Prelude.{◌≡◌};
ghost use Rattle.number_skeleton.specs.Data.{draft_data, read};
ghost use Rattle.number_skeleton.specs.Tokens.{skeleton_of, checked, precision_offset};

use crate::bytes::{behind, front};
use crate::cuts::{blanks_len, token_len};
use crate::draft::{Draft, finished, is_increment_of_compact, nothing_set};
use crate::fault::{FaultKind, SkeletonFault};
use crate::tokens::with_token;
use skeleton_settings::Skeleton;

/// The settings of a draft, if its notation and its increment go together.
fn checked(draft: Draft<'_>, precision_at: usize) -> Result<Skeleton<'_>, SkeletonFault>
    ensures { read result ≡
        checked (record { draft = draft_data draft.entry; precision_at = precision_at }) }
{
    if is_increment_of_compact(draft) {
        return Err(SkeletonFault {
            kind: FaultKind::IncrementOfCompact,
            byte: precision_at,
        });
    }
    Ok(finished(draft))
}

/// The byte of the token that sets the precision, as far as it is known before a token.
fn precision_offset(at: usize, draft: Draft<'_>, precision_at: usize) -> usize
    ensures { result ≡ precision_offset at
        (record { draft = draft_data draft.entry; precision_at = precision_at }) }
{
    if draft.digits.is_some() {
        precision_at
    } else {
        at
    }
}

/// The settings of a number skeleton (UTS 35 Part 3, Number Skeletons; the user guide of ICU has
/// their syntax). Tokens stand between blanks, the characters of Pattern_White_Space, in any order.
/// The text without a token sets nothing. Names of units and numbering systems are lent from the
/// text; no memory is taken.
///
/// # Errors
///
/// The first fault, with its byte. In a token the stem comes before its options, and a stem that
/// isn't read before one that is set already, and that before a count that is past 999. An increment
/// that doesn't go with compact notation is reported after all else.
// promise: A text sets what its tokens set, each setting once.
// mutations: second_setting_wins, blank_is_ascii_alone
// promise: Any other text has its first fault, with its byte.
// mutations: fault_of_an_option_reported_at_its_stem
pub fn read_skeleton(text: &str) -> Result<Skeleton<'_>, SkeletonFault>
    ensures { read result ≡ skeleton_of text.now }
{
    let bytes = text.as_bytes();
    let mut draft = nothing_set();
    let mut precision_at = 0;
    let mut at = 0;
    loop {
        at += blanks_len(behind(bytes, at));
        let rest = behind(bytes, at);
        if rest.is_empty() {
            return checked(draft, precision_at);
        }
        let len = token_len(rest);
        precision_at = precision_offset(at, draft, precision_at);
        draft = with_token(at, front(rest, len), draft)?;
        at += len;
    }
}
