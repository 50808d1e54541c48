//! What users' types are made of, and their traits: for encoding, and for decoding.

pub use kmip_ttlv_base::shape::{Data, FieldShape, Serialize, Shape, VariantContent, VariantShape};
pub use kmip_ttlv_de::{ByShape, Decode, Deserialize};
