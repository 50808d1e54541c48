//! What reading answers, as text.

use crate::reading::Reading;
use kmip_ttlv::error::{Error, ErrorKind};
use kmip_ttlv::from_slice;
use sample_shapes::names::{TagA, TagB};
use sample_shapes::parts::{Number, OneField, Part, Structure};
use std::alloc::Global;
use std::test::Fail;

/// A structure of one field.
pub type Of<P> = Structure<TagA, OneField<TagB, P>>;

/// A structure of one number.
pub type Single = Of<Number>;

/// What the bytes are read as by the shape: the data, or the error, and where. Of an input that ends too early no place
/// is said.
pub fn answer<P: Part>(alloc: Global, text: &str) -> Result<String, Fail> {
    let bytes = hex::decode(alloc, text)?;
    let found: Result<Reading<P>, Error> = from_slice(alloc, bytes.as_slice());
    text_of(alloc, found)
}

/// What was read, as [`answer`] has it.
pub fn text_of<P: Part>(alloc: Global, found: Result<Reading<P>, Error>) -> Result<String, Fail> {
    let error = match found {
        Ok(found) => return Ok(found.text),
        Err(error) => error,
    };
    let place = error.location();
    match error.kind() {
        ErrorKind::IoError(cause) => {
            let kind = cause.kind();
            Ok(format!(in alloc; "{kind:?}")?)
        }
        kind => Ok(format!(in alloc; "{kind:?}; {place}")?),
    }
}

/// Fails unless what was found of a message is what is wanted.
pub fn compare(found: &str, message: &str, wanted: &str) -> Result<(), Fail> {
    if found == wanted {
        return Ok(());
    }
    Err(Fail::new(format_args!("{message}: {found}")))
}
