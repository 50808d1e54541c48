//! One turn of a conversation: a message goes out, and the next one comes in.

ghost use Rattle.std.specs.Prelude.{◌≡◌};
ghost use Rattle.kmip_ttlv_de.specs.Settings.{settings_of};
ghost use Rattle.kmip_ttlv_de.specs.StreamMessages.{Ends, SliceResult};
ghost use Rattle.kmip_ttlv_ser.specs.EncodeResults.{EncodesTo};
ghost use Rattle.kmip_ttlv_types.specs.Held.{held};
ghost use Rattle.kmip_client.specs.Turns.{Turns};

use kmip_ttlv_base::error::Error;
use kmip_ttlv_base::shape::Serialize;
use kmip_ttlv_de::{Config, Decode, from_reader};
use kmip_ttlv_ser::to_writer;
use kmip_ttlv_types::stream::{Sink, Source};
use std::alloc::Allocator;

/// Where a turn broke off.
#[derive(Drop)]
pub enum Broken<A: Allocator> {
    /// The message can't be encoded, and nothing was written; or the writer failed, and a beginning of it may have been. Nothing was read.
    Sending(Error<A>),
    /// The message was written, and none came: the reader failed or ended, or what came is no message of the type.
    Receiving(Error<A>),
}

/// Sends a message, and takes the next one from the reader.
pub fn turn<Q: Serialize, T: Decode<A>, S: Source, W: Sink, A: Allocator + Copy>(
    alloc: A,
    message: &Q,
    writer: &mut W,
    reader: &mut S,
    config: &mut Config<A>,
) -> Result<T, Broken<A>>
    ensures { Turns
        (EncodesTo (Q.stated message.now) (held W.emitted W.room writer.old) (held W.emitted W.room writer.new))
        (Ends (SliceResult T.form T.is_value) S.can_fail (settings_of config.old).limit (S.left reader.old) (S.left reader.new) (settings_of config.new).reused)
        (reader.new ≡ reader.old)
        result }
{
    if let Err(error) = to_writer(alloc, message, writer) {
        return Err(Broken::Sending(error));
    }
    match from_reader(alloc, reader, config) {
        Ok(answer) => Ok(answer),
        Err(error) => Err(Broken::Receiving(error)),
    }
}
