//! Laws of encoding and decoding together, and messages that come back by them.

pub use crate::message::{Message, reread};
pub use kmip_ttlv_parts::laws::{
    Sound, agreeing_values_come_back, canonical_is_text, cut_messages_end_early,
    enumerations_come_back, is_absent_or_whole, is_none_of, is_whole, later_bytes,
    leaves_are_read_back, one_tree, padding_is_free, padding_is_required, padding_of_trees_is_free,
    reading_trees, reading_what_was_written, texts_of_data_are_utf8, units_are_read_back,
    worked_values_agree, written_is_items, written_is_well_formed,
};
