//! What a client asks over.

ghost use Rattle.std.specs.Prelude.{IfOk};
ghost use Rattle.kmip_client.specs.Answers.{AreAnswers};

use crate::failure::Failure;
use kmip_messages::request::Request;
use kmip_messages::response::Response;
use std::alloc::Allocator;

/// Who takes a request to a server, and brings back the response that answers it. `Connection` does so over a reader and a writer.
pub trait Exchange<A: Allocator + Copy> {
    ghost use Rattle.std.specs.Prelude.{Result};
    ghost use Rattle.kmip_messages.specs.declared.request.Request.{Request};
    ghost use Rattle.kmip_messages.specs.declared.response.Response.{Response};
    ghost use Rattle.kmip_client.specs.declared.failure.Failure.{Failure};

    // From old, a request may end so, and lead to new.
    ghost Exchanges: { Self → Self → Request A → Result (Response A) (Failure A) → Type 0 };

    /// Sends a request, and takes the response to it, which answers each of its items (`answers::are_answers`).
    fn exchange(&mut self, request: &Request<A>) -> Result<Response<A>, Failure<A>>
        ensures exchanges { Exchanges self.old self.new request.now result }
        ensures answers { IfOk result (λ response. AreAnswers request.now.items.items response.items.items) };
}
