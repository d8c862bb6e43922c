//! What is known of how each text is written.

use fixed_decimal::SignDisplay;
use number_formatters::Formatter;
use number_rounding::Rounding;
use std::marker::Model;

/// How numbers are written: with which digits and which sign, and by which formatter (this
/// project's own).
#[derive(Drop)]
pub struct Form {
    pub(crate) scale: i16,
    pub(crate) rounding: Option<Rounding>,
    pub(crate) sign: SignDisplay,
    pub(crate) formatter: Formatter,
}

impl Model for Form {
    ghost use Rattle.number_forms.specs.Forms.{FormData};

    ghost Value = { FormData };

    ghost view = { λ f. record {
      scale = f.scale;
      rounding = f.rounding;
      sign = f.sign;
      formatter = f.formatter;
    } };
}
