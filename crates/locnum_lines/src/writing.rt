//! Written numbers, columns and fields of CSV.

use crate::csv::{push_quoted, wants_quotes};
use crate::gathered::Gathered;
use crate::holding::hold;
use crate::padding::{Width, push_aligned};
use crate::settings::Delimiter;
use decimal_lines::TextError;
use number_forms::Form;
use std::alloc::{AllocError, Global};

impl Gathered {
    ghost use Rattle.std.specs.Prelude.{◌≡◌, ◌≢◌, ◌++◌, List, IfErr, Ok, OnOk, Some};
    ghost use Rattle.decimal_lines.specs.SingleText.{IsRefusal};
    ghost use Rattle.number_forms.specs.Forms.{form_events};
    ghost use Rattle.locnum_lines.specs.Csv.{as_field};
    ghost use Rattle.locnum_lines.specs.FieldRuns.{held_by};
    ghost use Rattle.locnum_lines.specs.Padding.{padded};
    ghost use Rattle.locnum_lines.specs.Ran.{first_of};
    ghost use Rattle.locnum_lines.specs.declared.settings.Delimiter.TheVariants.{Byte};
    ghost use Rattle.writeable.specs.Events.{Event, text_of};

    /// A number as it is shown, in fields that this byte ends.
    fn write_between(
        &mut self,
        alloc: Global,
        delimiter: u8,
        form: &Form,
        number: &[u8],
    ) -> Result<(), TextError>
        ensures ok { OnOk result ((events : List Event)
            × (form_events form.now number.now ≡ Ok events)
            × (self.new ≡ record self.old {
              output = self.old.output ++ text_of events;
              holding = first_of self.old.holding (held_by (Byte delimiter) (text_of events));
            })) }
        ensures refused { IfErr result (IsRefusal (form_events form.now number.now)) }
        ensures unchanged { IfErr result (λ error. error ≢ TextError.OutOfMemory
            → self.new ≡ self.old) }
    {
        let start = self.output.len();
        form.push(alloc, number, &mut self.output)?;
        let Ok(()) = hold(
            Delimiter::Byte(delimiter),
            &self.output[start..],
            &mut self.holding,
        ) else {
            return Err(TextError::OutOfMemory);
        };
        Ok(())
    }

    /// A number as it is shown.
    pub(crate) fn write_number(
        &mut self,
        alloc: Global,
        delimiter: Delimiter,
        form: &Form,
        number: &[u8],
    ) -> Result<(), TextError>
        ensures ok { OnOk result ((events : List Event)
            × (form_events form.now number.now ≡ Ok events)
            × (self.new ≡ record self.old {
              output = self.old.output ++ text_of events;
              holding = first_of self.old.holding (held_by delimiter (text_of events));
            })) }
        ensures refused { IfErr result (IsRefusal (form_events form.now number.now)) }
        ensures unchanged { IfErr result (λ error. error ≢ TextError.OutOfMemory
            → self.new ≡ self.old) }
    {
        match delimiter {
            Delimiter::Blanks | Delimiter::Csv(_) => form.push(alloc, number, &mut self.output),
            Delimiter::Byte(byte) => self.write_between(alloc, byte, form, number),
        }
    }

    /// A text of the output as a field of CSV that was in quotes or not.
    pub(crate) fn write_field(
        &mut self,
        delimiter: u8,
        end: u8,
        was_quoted: bool,
        text: &[u8],
    ) -> Result<(), AllocError>
        ensures { OnOk result (self.new ≡ record self.old {
          output = self.old.output ++ as_field delimiter end was_quoted text.now;
        }) }
    {
        if was_quoted || wants_quotes(delimiter, end, text) {
            return push_quoted(text, &mut self.output);
        }
        self.write(text)
    }

    /// A number that is shown so, in columns of this width.
    pub(crate) fn write_columns(
        &mut self,
        delimiter: Delimiter,
        width: Width,
        number: &[u8],
    ) -> Result<(), AllocError>
        ensures { OnOk result (self.new ≡ record self.old {
          output = self.old.output ++ padded (Some width) number.now;
          holding = first_of self.old.holding (held_by delimiter number.now);
        }) }
    {
        hold(delimiter, number, &mut self.holding)?;
        push_aligned(width, number, &mut self.output)
    }
}
