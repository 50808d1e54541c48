//! A connection: requests go to its writer, and their responses come from its reader.

ghost use Rattle.std.specs.Prelude.{◌≡◌, [], ◌∷◌, length, map};
ghost use Rattle.kmip_ttlv_de.specs.Settings.{settings_of};
ghost use Rattle.kmip_ttlv_de.specs.StreamMessages.{Ends, SliceResult};
ghost use Rattle.kmip_ttlv_ser.specs.EncodeResults.{EncodesTo};
ghost use Rattle.kmip_ttlv_types.specs.Held.{held};
ghost use Rattle.kmip_client.specs.Answers.{RefusesWhole};
ghost use Rattle.kmip_client.specs.Exchanges.{Exchanged, IsJudged};
ghost use Rattle.kmip_client.specs.Refusals.{refusal_of};

use crate::answers::{Verdict, judge};
use crate::exchange::Exchange;
use crate::failure::{Failure, Refusal};
use crate::only::the_only;
use crate::turn::{Broken, turn};
use kmip_messages::request::Request;
use kmip_messages::response::Response;
use kmip_ttlv_base::shape::Serialize;
use kmip_ttlv_de::{Config, Decode};
use kmip_ttlv_types::stream::{Sink, Source};
use std::alloc::{Allocator, Global};

/// A connection: requests go to its writer, and their responses come from its reader.
///
/// After `Failure::Sending` or `Failure::Receiving` the two may be anywhere within a message: open another connection.
#[derive(Drop)]
pub struct Connection<S, W, A: Allocator = Global> {
    alloc: A,
    /// Where responses come from.
    pub reader: S,
    /// Where requests go to.
    pub writer: W,
    config: Config<A>,
}

impl<S: Source, W: Sink, A: Allocator + Copy> Connection<S, W, A> {
    /// A connection that takes responses of at most so many bytes.
    pub fn new(alloc: A, most: u32, reader: S, writer: W) -> Connection<S, W, A>
        ensures reader { result.reader ≡ reader }
        ensures writer { result.writer ≡ writer }
        ensures limit { (settings_of result.config).limit ≡ Some most }
    {
        let config = Config::new(alloc).with_max_bytes(most).with_read_buf();
        Connection {
            alloc,
            reader,
            writer,
            config,
        }
    }
}

impl<S: Source, W: Sink, A: Allocator + Copy> Exchange<A> for Connection<S, W, A> {
    ghost Exchanges = { λ old new request result. Exchanged
        (EncodesTo (⟦<Request<A> as Serialize>⟧.stated request) (held W.emitted W.room old.writer) (held W.emitted W.room new.writer))
        (Ends (SliceResult ⟦<Response<A> as Decode<A>>⟧.form ⟦<Response<A> as Decode<A>>⟧.is_value) S.can_fail (settings_of old.config).limit
        (S.left old.reader) (S.left new.reader) (settings_of new.config).reused)
        (new.reader ≡ old.reader) request result };

    fn exchange(&mut self, request: &Request<A>) -> Result<Response<A>, Failure<A>> {
        match turn(
            self.alloc,
            request,
            &mut self.writer,
            &mut self.reader,
            &mut self.config,
        ) {
            Err(Broken::Sending(error)) => Err(Failure::Sending(error)),
            Err(Broken::Receiving(error)) => Err(Failure::Receiving(error)),
            Ok(response) => judged(request, response),
        }
    }
}

// What a response that refuses a request as a whole says.
fn refusal<A: Allocator>(response: Response<A>) -> Refusal<A>
    requires { RefusesWhole response.items.items }
    ensures { map refusal_of response.items.items ≡ result ∷ [] }
{
    let item = the_only(response.items);
    Refusal::of(item)
}

// A response, if it answers the request.
fn judged<A: Allocator>(
    request: &Request<A>,
    response: Response<A>,
) -> Result<Response<A>, Failure<A>>
    ensures { IsJudged request.now response result }
{
    match judge(request, &response) {
        Verdict::Answers => Ok(response),
        Verdict::Refuses => Err(Failure::Refused(refusal(response))),
        Verdict::Miscounted => Err(Failure::Miscounted(response)),
        Verdict::OtherVersion => Err(Failure::OtherVersion(response)),
        Verdict::Unasked => Err(Failure::Unasked(response)),
    }
}
