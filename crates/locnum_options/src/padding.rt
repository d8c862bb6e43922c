//! How wide numbers are asked for.

ghost use Rattle.std.specs.Prelude.{◌≡◌};
ghost use Rattle.locnum_lines.specs.declared.padding.Alignment.{Alignment};
ghost use Rattle.locnum_options.specs.Padding.{columns_named, padding_named};

use crate::fields::positive_number_named;
use locnum_lines::{Alignment, Padding};

/// Columns of this count.
#[tactic(auto, unfolding(crate::specs::Padding::columns_named))]
fn columns_named(alignment: Alignment, text: &str) -> Option<Padding>
    ensures { result ≡ columns_named alignment text.now }
{
    let columns = positive_number_named(text)?;
    if columns > 65535 {
        return None;
    }
    Some(Padding {
        columns: columns as u16,
        alignment,
    })
}

/// The columns of a text: `N`, or `-N`.
#[tactic(auto, unfolding(crate::specs::Padding::padding_named))]
pub(crate) fn padding_named(text: &str) -> Option<Padding>
    ensures { result ≡ padding_named text.now }
{
    match text.strip_prefix('-') {
        Some(count) => columns_named(Alignment::Left, count),
        None => columns_named(Alignment::Right, text),
    }
}
