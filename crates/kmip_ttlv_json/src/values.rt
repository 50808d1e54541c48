//! Values, and the texts that stand for them: what their XML has in common with their JSON.

pub use crate::adding::{integer_of, interval_of};
pub use crate::masks::mask_text;
pub use crate::members::{behind_0x, bytes_of, tag_of, type_named};
pub use crate::plain::{eight_bytes, four_bytes};
pub use crate::seen::Whole;
