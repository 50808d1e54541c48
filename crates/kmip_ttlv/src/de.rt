//! Decoding values from bytes, and from a stream of bytes.

pub use kmip_ttlv_de::{
    Config, from_reader, from_slice, from_slice_by_shape, one_split, one_value, read_by_rules,
    results_stand, small_messages, what_begins_is_given, whole_messages_never_end_early,
};
