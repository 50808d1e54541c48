//! A server over any reader and writer: messages are read one at a time, each is answered, and the log has a line for each.

ghost use Rattle.std.specs.Prelude.{◌≡◌, Some, OnErr, OnOk, is_some, true};
ghost use Rattle.kmip_ttlv_base.specs.Errors.{kind_of, view_of_kind};
ghost use Rattle.kmip_ttlv_de.specs.Settings.{KeepsSettings, settings_of};
ghost use Rattle.kmip_server.specs.Items.{IsDone};
ghost use Rattle.kmip_server.specs.Messages.{Replies};
ghost use Rattle.kmip_server.specs.Replies.{Sends};
ghost use Rattle.kmip_server.specs.Serving.{HandlesMessage, IsDealtWith, IsNoted, IsSentTo, Logs, LogsFront, Serves, end_behind, is_cut_by, is_silent};

use crate::codec::Codec;
use crate::handler::Handler;
use crate::log::line;
use crate::reply::{NoReply, reply_bytes};
use kmip_messages::envelope::RequestEnvelope;
use kmip_ttlv::Config;
use kmip_ttlv::error::{Error, ErrorKind};
use kmip_ttlv::types::stream::{Sink, Source};
use std::alloc::{Allocator, Global};
use std::io;

/// How many bytes a server takes and gives.
#[derive(Clone, Copy)]
pub struct Limits {
    /// The most bytes of a request. A larger one is refused after its header, and ends the serving.
    pub request: u32,
    /// The most bytes of a response. A larger one is refused in its place.
    pub response: u32,
}

/// How serving ends.
#[derive(Clone, Copy, Debug, PartialEq, Eq)]
pub enum End {
    /// The input ended or failed, or memory ran out, before a message came whole. What came of it is not answered.
    Input,
    /// A message was refused by its header, so it isn't known where the next one begins.
    Lost,
}

/// Why serving stops: nothing is read after it, and nothing written.
#[derive(Drop)]
pub enum ServeError<A: Allocator = Global> {
    /// There is no response to send: memory ran out, also for the refusal that says so, or it has more than 2^32 - 1 bytes; or a limit,
    /// the server's or the client's, has no room for the refusal that says so.
    NoReply(NoReply<A>),
    /// The log failed, or memory ran out for a line of it.
    Log(io::Error),
    /// The writer failed: a beginning of a response may have been written.
    Writer(io::Error),
    /// As many messages came as a 64-bit count can count.
    Count,
}

// Whether an error is that a message did not come whole.
fn is_cut<A: Allocator>(error: &Error<A>) -> bool
    ensures { result ≡ is_cut_by (view_of_kind (kind_of error.now)) }
{
    matches!(error.kind(), ErrorKind::IoError(_) | ErrorKind::OutOfMemory)
}

// Whether there is nothing to answer.
fn is_silent<T, A: Allocator>(read: &Result<T, Error<A>>, between: bool) -> bool
    ensures { result ≡ is_silent read.now between }
{
    match read {
        Ok(_) => false,
        Err(error) => !between && is_cut(error),
    }
}

// How the serving ends behind a message that was answered.
fn end_behind(between: bool) -> Option<End>
    ensures { result ≡ end_behind between }
{
    if between { None } else { Some(End::Lost) }
}

// Writes a line of the log.
fn tell<L: Sink, A: Allocator + Copy>(
    alloc: A,
    log: &mut L,
    who: &str,
    bytes: &[u8],
) -> io::Result<()>
    ensures ok { OnOk result (Logs who.now bytes.now (L.emitted log.old) (L.emitted log.new)) }
    ensures err { OnErr result (LogsFront who.now bytes.now (L.emitted log.old) (L.emitted log.new)) }
{
    let line = line(alloc, who, bytes)?;
    log.send(line.as_bytes())
}

// The same, of which the error says that it is the log's.
fn note<L: Sink, A: Allocator + Copy>(
    alloc: A,
    log: &mut L,
    who: &str,
    bytes: &[u8],
) -> Result<(), ServeError<A>>
    ensures { IsNoted who.now bytes.now (L.emitted log.old) result (L.emitted log.new) }
{
    match tell(alloc, log, who, bytes) {
        Ok(()) => Ok(()),
        Err(error) => Err(ServeError::Log(error)),
    }
}

// Writes a response.
fn send<W: Sink, A: Allocator>(writer: &mut W, bytes: &[u8]) -> Result<(), ServeError<A>>
    ensures { IsSentTo bytes.now (W.emitted writer.old) result (W.emitted writer.new) }
{
    match writer.send(bytes) {
        Ok(()) => Ok(()),
        Err(error) => Err(ServeError::Writer(error)),
    }
}

// Deals with what was read: one response is written, and the log has a line for the request and one for the response.
fn answer_read<D: Codec<A>, H: Handler<A>, W: Sink, L: Sink, A: Allocator + Copy>(
    handler: &mut H,
    alloc: A,
    came: &[u8],
    read: Result<RequestEnvelope<A>, Error<A>>,
    limit: u32,
    writer: &mut W,
    log: &mut L,
) -> Result<(), ServeError<A>>
    ensures { IsDealtWith (Sends D.stated (Replies H.Admits (IsDone H.Does H.declaration D.ReadsItem) D.IsSound
        D.ReadsHeader H.declaration limit) H.declaration limit)
        record { handler = handler.old; written = W.emitted writer.old; logged = L.emitted log.old } read came.now result
        record { handler = handler.new; written = W.emitted writer.new; logged = L.emitted log.new } }
{
    note(alloc, log, "> ", came)?;
    match reply_bytes::<D, H, A>(handler, alloc, read, limit) {
        Ok(bytes) => {
            note(alloc, log, "< ", bytes.as_slice())?;
            send(writer, bytes.as_slice())
        }
        Err(error) => Err(ServeError::NoReply(error)),
    }
}

// The bytes of the message that was read last.
fn taken<A: Allocator>(config: &Config<A>) -> &[u8]
    requires { is_some (settings_of config.now).reused ≡ true }
    ensures { (settings_of config.now).reused ≡ Some result.now }
{
    match config.read_buf() {
        Some(bytes) => bytes.as_slice(),
        None => unreachable!(),
    }
}

// Reads one message and answers it. The end is said, if the serving ends with it.
fn serve_one<D: Codec<A>, H: Handler<A>, S: Source, W: Sink, L: Sink, A: Allocator + Copy>(
    handler: &mut H,
    alloc: A,
    config: &mut Config<A>,
    limit: u32,
    reader: &mut S,
    writer: &mut W,
    log: &mut L,
) -> Result<Option<End>, ServeError<A>>
    requires { is_some (settings_of config.old).reused ≡ true }
    ensures config { KeepsSettings (settings_of config.old) (settings_of config.new) }
    ensures handles { HandlesMessage D.ReadsRequest (Sends D.stated (Replies H.Admits
        (IsDone H.Does H.declaration D.ReadsItem) D.IsSound D.ReadsHeader H.declaration limit) H.declaration limit)
        S.can_fail (settings_of config.old).limit
        record { left = S.left reader.old; desk = record { handler = handler.old; written = W.emitted writer.old; logged = L.emitted log.old } } result
        record { left = S.left reader.new; desk = record { handler = handler.new; written = W.emitted writer.new; logged = L.emitted log.new } } }
{
    let read = D::read_request(alloc, reader, config);
    let between = config.is_between_messages();
    if is_silent(&read, between) {
        return Ok(Some(End::Input));
    }
    answer_read::<D, H, W, L, A>(handler, alloc, taken(config), read, limit, writer, log)?;
    Ok(end_behind(between))
}

/// Answers requests until the input ends, or until a message is refused by its header, so that what follows can't be told from what
/// came: that one is still answered, and nothing behind it is read.
///
/// Each message that came whole has exactly one response, in their order, and so has one that is refused by its header. Nothing of what
/// is no request reaches the handler. A response is never larger than `limits.response`, nor, where the request's header can be decoded,
/// than its Maximum Response Size. The log has a line for each message and each response: the outline of a message, or the fault of
/// malformed bytes.
///
/// KMIP's own rules are those of `Kmip`: `serve::<Kmip, _, _, _, _, _>`.
///
/// What a message took is given back before the next is read, but for its bytes, whose buffer is used again. So an allocator with a budget
/// bounds each message (`BoundedAllocator`), and one that wipes leaves no key behind (`Wiping`). A response is written by one call, and
/// nothing is flushed: a writer that holds bytes back leaves its client waiting.
///
/// It fails if memory runs out so that not even that can be answered, if a limit has no room for the refusal that says so, or if the
/// writer or the log fails. Nothing is read or written after that.
pub fn serve<D: Codec<A>, H: Handler<A>, S: Source, W: Sink, L: Sink, A: Allocator + Copy>(
    handler: &mut H,
    alloc: A,
    limits: Limits,
    reader: &mut S,
    writer: &mut W,
    log: &mut L,
) -> Result<End, ServeError<A>>
    ensures { Serves D.ReadsRequest (Sends D.stated (Replies H.Admits
        (IsDone H.Does H.declaration D.ReadsItem) D.IsSound D.ReadsHeader H.declaration limits.response) H.declaration limits.response)
        S.can_fail (Some limits.request)
        record { left = S.left reader.old; desk = record { handler = handler.old; written = W.emitted writer.old; logged = L.emitted log.old } } result
        record { left = S.left reader.new; desk = record { handler = handler.new; written = W.emitted writer.new; logged = L.emitted log.new } } }
{
    let mut config = Config::new(alloc)
        .with_max_bytes(limits.request)
        .with_read_buf();
    'messages: for _ in 0..u64::MAX {
        match serve_one::<D, H, S, W, L, A>(
            handler,
            alloc,
            &mut config,
            limits.response,
            reader,
            writer,
            log,
        ) {
            Ok(None) => {}
            Ok(Some(end)) => return Ok(end),
            Err(error) => return Err(error),
        }
    }
    Err(ServeError::Count)
}
