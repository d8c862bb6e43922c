//! Numbers with a letter for a power of 1000 or 1024, as coreutils' `numfmt` reads and writes them.
#![tactic(auto)]

mod digits;
mod division;
mod error;
pub mod laws;
mod letters;
mod product;
mod reading;
mod scale;
mod scaling;
mod showing;
mod spelling;
mod suffix;

pub use error::{NotScaled, ScaleError};
pub use letters::suffix_of;
pub use reading::read_scaled;
pub use scale::{Base, FromScale, Scale, Unit};
pub use scaling::{ScaledNumber, scale_down};
