//! What an envelope says of each item of a message, whatever is in its payload: its operation, and what names it in the batch (KMIP 1.0,
//! section 7.2).

use crate::fates::is_request;
use crate::kept_items::envelope_of;
use kmip_messages::envelope::{RequestEnvelopeItem, ResponseEnvelope, ResponseEnvelopeItem};
use kmip_messages::header::Operation;
use kmip_ttlv::error::Error;
use kmip_ttlv::from_slice;
use std::alloc::Global;
use std::{fmt, io};

// An operation, and the digits of the identifier behind it, if there is one.
#[derive(Drop)]
struct Line<'e> {
    operation: Option<Operation>,
    id: Option<&'e [u8]>,
}

impl fmt::Display for Line<'_> {
    fn fmt<W: fmt::Write>(&self, f: &mut fmt::Formatter<W>) -> fmt::Result {
        match self.operation {
            Some(operation) => write!(f, " {operation:?}")?,
            None => write!(f, " no operation")?,
        }
        let Some(id) = self.id else {
            return Ok(());
        };
        write!(f, " of ")?;
        for byte in id {
            write!(f, "{byte:02X}")?;
        }
        Ok(())
    }
}

// The items of a request.
#[derive(Drop)]
struct Asked<'e> {
    items: &'e [RequestEnvelopeItem],
}

impl fmt::Display for Asked<'_> {
    fn fmt<W: fmt::Write>(&self, f: &mut fmt::Formatter<W>) -> fmt::Result {
        for item in self.items {
            let line = Line {
                operation: Some(item.operation),
                id: item.unique_batch_item_id.as_deref(),
            };
            write!(f, "{line}")?;
        }
        Ok(())
    }
}

// The items of a response.
#[derive(Drop)]
struct Told<'e> {
    items: &'e [ResponseEnvelopeItem],
}

impl fmt::Display for Told<'_> {
    fn fmt<W: fmt::Write>(&self, f: &mut fmt::Formatter<W>) -> fmt::Result {
        for item in self.items {
            let line = Line {
                operation: item.operation,
                id: item.unique_batch_item_id.as_deref(),
            };
            write!(f, "{line}")?;
        }
        Ok(())
    }
}

// The envelope of the response that bytes are.
fn answer_of(alloc: Global, bytes: &[u8]) -> Result<ResponseEnvelope, Error> {
    from_slice(alloc, bytes)
}

/// Prints the operation of each item of a message and what names it in the batch, if something does, in a line that begins with this
/// name, and ends with that text.
pub fn print_items(rt: &HostRuntime, name: &str, bytes: &[u8], end: &str) -> io::Result<()> {
    if is_request(bytes) {
        match &envelope_of(rt.alloc(), bytes) {
            Ok(envelope) => {
                let items = envelope.items.as_slice();
                println!(rt; "{name}{}{end}", Asked { items })
            }
            Err(error) => println!(rt; "{name}: {error}"),
        }
    } else {
        match &answer_of(rt.alloc(), bytes) {
            Ok(envelope) => {
                let items = envelope.items.as_slice();
                println!(rt; "{name}{}{end}", Told { items })
            }
            Err(error) => println!(rt; "{name}: {error}"),
        }
    }
}
