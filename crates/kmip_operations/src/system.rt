//! What a server takes of the system that it runs on: the time, random bytes, and its standard streams.

ghost use Rattle.std.specs.Prelude.{◌≡◌, IfOk, IfSome, Some, length, true};
ghost use Rattle.kmip_server.specs.Items.{IsDone};
ghost use Rattle.kmip_server.specs.Messages.{Replies};
ghost use Rattle.kmip_server.specs.Replies.{Sends};
ghost use Rattle.kmip_server.specs.Serving.{Serves};
ghost use Rattle.kmip_operations.specs.Streams.{IsServed};

use kmip_messages::response::result_reason;
use kmip_server::codec::{Codec, Kmip};
use kmip_server::handler::Handler;
use kmip_server::refusal::Refusal;
use kmip_server::serve::{End, Limits, ServeError, serve};
use std::alloc::Allocator;
use std::random::RandomSource;
use std::time::{Clock, SystemTime};

/// The time in seconds since 1970: the one that is given, or that of the clock; 0 if the clock fails.
pub fn seconds(clock: &impl Clock, given: Option<i64>) -> i64
    ensures { IfSome given (λ time. result ≡ time) }
{
    if let Some(time) = given {
        return time;
    }
    let Ok(now) = SystemTime::now(clock) else {
        return 0;
    };
    match now.duration_since(SystemTime::UNIX_EPOCH) {
        Ok(since) => i64::try_from(since.as_secs()).unwrap_or(0),
        Err(_) => 0,
    }
}

/// So many bytes from a source of random numbers. Refused with Cryptographic Failure if that fails.
pub fn random_bytes<K: Allocator>(
    alloc: K,
    source: &impl RandomSource,
    count: usize,
) -> Result<Vec<u8, K>, Refusal>
    ensures { IfOk result (λ bytes. length bytes.items ≡ count) }
{
    let mut bytes = vec![in alloc; 0u8; count]?;
    match source.fill_bytes(bytes.as_mut_slice()) {
        Ok(()) => Ok(bytes),
        Err(_) => Err(Refusal::new(
            result_reason::CRYPTOGRAPHIC_FAILURE,
            "there are no random bytes",
        )),
    }
}

/// Answers the requests on standard input, of at most 65,536 bytes each, until it ends: responses go to standard output, of as many bytes
/// at most, and the log to standard error. Each message has its memory of the allocator. It ends and fails as `serve`.
pub fn serve_streams<H: Handler<A>, A: Allocator + Copy>(
    rt: HostRuntime,
    alloc: A,
    handler: &mut H,
) -> Result<End, ServeError<A>>
    ensures { IsServed (λ first last. Serves ⟦<Kmip as Codec<A>>⟧.ReadsRequest (Sends ⟦<Kmip as Codec<A>>⟧.stated (Replies H.Admits
        (IsDone H.Does H.declaration ⟦<Kmip as Codec<A>>⟧.ReadsItem) ⟦<Kmip as Codec<A>>⟧.IsSound ⟦<Kmip as Codec<A>>⟧.ReadsHeader H.declaration 65536) H.declaration 65536)
        true (Some 65536) first result last) handler.old handler.new }
{
    let limits = Limits {
        request: 65_536,
        response: 65_536,
    };
    let (mut input, mut output, mut log) = (rt.stdin(), rt.stdout(), rt.stderr());
    serve::<Kmip, _, _, _, _, _>(handler, alloc, limits, &mut input, &mut output, &mut log)
}
