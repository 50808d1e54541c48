//! How the header and the items of a request are decoded, and which answers are sound: KMIP's own rules, in one place, so that what stands
//! on them is proved for any.

ghost use Rattle.std.specs.Prelude.{◌↔◌, IsTrue};
ghost use Rattle.kmip_ttlv_ser.specs.EncodeResults.{Encodes};
ghost use Rattle.kmip_ttlv_de.specs.Settings.{KeepsSettings, is_between, settings_of};
ghost use Rattle.kmip_ttlv_de.specs.StreamMessages.{Ends, Leaves, SliceResult};
ghost use Rattle.kmip_ttlv_kinds.specs.Parts.{IsWithinSound};
ghost use Rattle.kmip_server.specs.Conversions.{Converts, TakesAs};

use kmip_messages::envelope::{EnvelopeHeader, RequestEnvelope, RequestEnvelopeItem};
use kmip_messages::header::RequestHeader;
use kmip_messages::request::RequestItem;
use kmip_messages::response::{Response, ResponseItem};
use kmip_ttlv::error::Error;
use kmip_ttlv::shape::{Decode, Serialize};
use kmip_ttlv::types::stream::Source;
use kmip_ttlv::{Config, Kept, from_reader, to_vec};
use kmip_ttlv_kinds::{Structure, convert, is_structure_whole};
use std::alloc::Allocator;
use std::mem;

/// How the header and the items of a request are decoded, and which answers are sound.
pub trait Codec<A: Allocator + Copy> {
    ghost use Rattle.std.specs.Prelude.{ℕ, List, Result};
    ghost use Rattle.kmip_ttlv_base.specs.Values.{Value};
    ghost use Rattle.kmip_messages.specs.declared.envelope.RequestEnvelope.{RequestEnvelope};
    ghost use Rattle.kmip_messages.specs.declared.response.Response.{Response};
    ghost use Rattle.kmip_ttlv_base.specs.declared.error.Error.{Error};
    ghost use Rattle.kmip_headers.specs.declared.header.RequestHeader.{RequestHeader};
    ghost use Rattle.kmip_messages.specs.declared.envelope.EnvelopeHeader.{EnvelopeHeader};
    ghost use Rattle.kmip_messages.specs.declared.envelope.RequestEnvelopeItem.{RequestEnvelopeItem};
    ghost use Rattle.kmip_messages.specs.declared.request.RequestItem.{RequestItem};
    ghost use Rattle.kmip_messages.specs.declared.response.ResponseItem.{ResponseItem};

    // What the bytes of a message are decoded as.
    ghost ReadsRequest: { List ℕ → Result (RequestEnvelope A) (Error A) → Type 0 };

    // What a response is encoded as.
    ghost stated: { Response A → Value };

    // What a header is decoded as.
    ghost ReadsHeader: { EnvelopeHeader A → Result (RequestHeader A) (Error A) → Type 0 };

    // What an item is decoded as.
    ghost ReadsItem: { RequestEnvelopeItem A → Result (RequestItem A) (Error A) → Type 0 };

    // An answer is sound.
    ghost IsSound: { ResponseItem A → Type 0 };

    /// Reads one request, as `from_reader` reads a message.
    fn read_request<S: Source>(
        alloc: A,
        reader: &mut S,
        config: &mut Config<A>,
    ) -> Result<RequestEnvelope<A>, Error<A>>
        ensures ends { Ends ReadsRequest S.can_fail (settings_of config.old).limit
            (S.left reader.old) (S.left reader.new) (settings_of config.new).reused result }
        ensures config { KeepsSettings (settings_of config.old) (settings_of config.new) }
        ensures between { Leaves S.can_fail (settings_of config.old).limit (S.left reader.old) (S.left reader.new)
            (settings_of config.new).reused (is_between config.new) result };

    /// Encodes a response, as `to_vec` does.
    fn encode(alloc: A, response: &Response<A>) -> Result<Vec<u8, A>, Error<A>>
        ensures { Encodes (stated response.now) result };

    /// Decodes a header, and takes what it holds.
    fn read_header(alloc: A, header: &mut EnvelopeHeader<A>) -> Result<RequestHeader<A>, Error<A>>
        ensures { TakesAs ReadsHeader header.old result };

    /// Decodes an item, and takes what it holds.
    fn read_item(alloc: A, item: &mut RequestEnvelopeItem<A>) -> Result<RequestItem<A>, Error<A>>
        ensures { TakesAs ReadsItem item.old result };

    /// Whether an answer is sound.
    fn is_sound(answer: &ResponseItem<A>) -> bool
        ensures { IsTrue result ↔ IsSound answer.now };
}

// A header as it is decoded.
fn header_of<A: Allocator + Copy>(
    alloc: A,
    header: EnvelopeHeader<A>,
) -> Result<RequestHeader<A>, Error<A>>
    ensures { Converts ⟦<EnvelopeHeader<A> as Structure<A>>⟧.rules.written ⟦<RequestHeader<A> as Structure<A>>⟧.rules.fields ⟦<RequestHeader<A> as Structure<A>>⟧.rules.closed ⟦<RequestHeader<A> as Structure<A>>⟧.rules.values 0x420077 header result }
{
    convert(alloc, header, 0x420077)
}

// An item as it is decoded.
fn item_of<A: Allocator + Copy>(
    alloc: A,
    item: RequestEnvelopeItem<A>,
) -> Result<RequestItem<A>, Error<A>>
    ensures { Converts ⟦<RequestEnvelopeItem<A> as Structure<A>>⟧.rules.written ⟦<RequestItem<A> as Structure<A>>⟧.rules.fields ⟦<RequestItem<A> as Structure<A>>⟧.rules.closed ⟦<RequestItem<A> as Structure<A>>⟧.rules.values 0x42000F item result }
{
    convert(alloc, item, 0x42000F)
}

/// KMIP's own: a header and an item are what `convert` makes of them, and an answer is sound if its type's rules say so, so if its
/// payload is one of its operation.
pub struct Kmip;

impl<A: Allocator + Copy> Codec<A> for Kmip {
    ghost ReadsRequest = { SliceResult ⟦<RequestEnvelope<A> as Decode<A>>⟧.form ⟦<RequestEnvelope<A> as Decode<A>>⟧.is_value };

    ghost stated = { ⟦<Response<A> as Serialize>⟧.stated };

    ghost ReadsHeader = { Converts ⟦<EnvelopeHeader<A> as Structure<A>>⟧.rules.written ⟦<RequestHeader<A> as Structure<A>>⟧.rules.fields ⟦<RequestHeader<A> as Structure<A>>⟧.rules.closed ⟦<RequestHeader<A> as Structure<A>>⟧.rules.values 0x420077 };

    ghost ReadsItem = { Converts ⟦<RequestEnvelopeItem<A> as Structure<A>>⟧.rules.written ⟦<RequestItem<A> as Structure<A>>⟧.rules.fields ⟦<RequestItem<A> as Structure<A>>⟧.rules.closed ⟦<RequestItem<A> as Structure<A>>⟧.rules.values 0x42000F };

    ghost IsSound = { IsWithinSound ⟦<ResponseItem<A> as Structure<A>>⟧.rules.IsSound };

    fn read_request<S: Source>(
        alloc: A,
        reader: &mut S,
        config: &mut Config<A>,
    ) -> Result<RequestEnvelope<A>, Error<A>> {
        from_reader(alloc, reader, config)
    }

    fn encode(alloc: A, response: &Response<A>) -> Result<Vec<u8, A>, Error<A>> {
        to_vec(alloc, response)
    }

    fn read_header(alloc: A, header: &mut EnvelopeHeader<A>) -> Result<RequestHeader<A>, Error<A>> {
        let rest = EnvelopeHeader {
            version: header.version,
            other_items: Kept::none(alloc),
        };
        header_of(alloc, mem::replace(header, rest))
    }

    fn read_item(alloc: A, item: &mut RequestEnvelopeItem<A>) -> Result<RequestItem<A>, Error<A>> {
        let rest = RequestEnvelopeItem {
            operation: item.operation,
            ephemeral: None,
            unique_batch_item_id: None,
            payload: Kept::none(alloc),
            other_items: Kept::none(alloc),
        };
        item_of(alloc, mem::replace(item, rest))
    }

    fn is_sound(answer: &ResponseItem<A>) -> bool {
        is_structure_whole(answer)
    }
}
