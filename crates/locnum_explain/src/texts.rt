//! Lines with a number each, explained.

ghost use Rattle.std.specs.Prelude.{◌≡◌, ◌++◌, ◌&&◌, IfOk, OnOk, map};
ghost use Rattle.locnum_explain.specs.Texts.{is_line_refused, is_one_refused, line_explained, lines_explained, positioned_explanation, trimmed};
ghost use Rattle.std.specs.Result.{is_err};
ghost use Rattle.number_forms.specs.Forms.{form_events};

use crate::explaining::explain;
use crate::settings::Settings;
use number_forms::Form;
use std::alloc::{AllocError, Global};

/// The text of a line: what is left of it without the white space of ASCII at its ends.
fn trimmed(line: &[u8]) -> &[u8]
    ensures { result.now ≡ trimmed line.now }
{
    line.trim_ascii()
}

/// Whether no line is read behind one: where they end at a text that is rejected, and its text is.
fn ends(stops: bool, is_refused: bool) -> bool
    ensures { result ≡ (stops && is_refused) }
{
    stops && is_refused
}

/// Appends the explanation of the text of a line (this project's own), which is the line without
/// the white space of ASCII at its ends; whether the text is rejected.
pub fn explain_line(
    alloc: Global,
    settings: &Settings<'_>,
    form: &Form,
    line: &[u8],
    out: &mut Vec<u8>,
) -> Result<bool, AllocError>
    ensures lines { OnOk result (out.new.items ≡ out.old.items
        ++ line_explained settings.now form.now line.now) }
    ensures refused { IfOk result (λ r. r ≡ is_line_refused form.now line.now) }
{
    explain(alloc, settings, form, trimmed(line), out)
}

/// Appends the explanations of the texts of lines (this project's own), one behind the other, and
/// where it `stops` there, up to the first text that is rejected; whether one is rejected.
// promise: Lines are explained in order, or up to a rejected text.
// mutations: lines_go_on_behind_a_refused_text
pub fn explain_lines(
    alloc: Global,
    settings: &Settings<'_>,
    stops: bool,
    form: &Form,
    lines: &[&str],
    out: &mut Vec<u8>,
) -> Result<bool, AllocError>
    ensures lines { OnOk result (out.new.items ≡ out.old.items
        ++ lines_explained settings.now stops form.now (map (λ l. l.now) lines.now)) }
    ensures refused { IfOk result (λ r. r
        ≡ is_one_refused form.now (map (λ l. l.now) lines.now)) }
{
    let mut is_refused = false;
    for line in lines {
        let refused = explain_line(alloc, settings, form, line.as_bytes(), out)?;
        if ends(stops, refused) {
            return Ok(true);
        }
        is_refused |= refused;
    }
    Ok(is_refused)
}

/// Appends the explanation of a text that stands at a place (this project's own), under a line that
/// says where; whether the text is rejected.
// promise: A line with the place stands above the explanation.
// mutations: place_of_a_text_left_out
pub fn explain_at(
    alloc: Global,
    settings: &Settings<'_>,
    form: &Form,
    position: &[u8],
    text: &[u8],
    out: &mut Vec<u8>,
) -> Result<bool, AllocError>
    ensures lines { OnOk result (out.new.items ≡ out.old.items
        ++ positioned_explanation settings.now form.now position.now text.now) }
    ensures refused { IfOk result (λ r. r ≡ is_err (form_events form.now text.now)) }
{
    out.extend_from_slice(position)?;
    out.push(b'\n')?;
    explain(alloc, settings, form, text, out)
}
