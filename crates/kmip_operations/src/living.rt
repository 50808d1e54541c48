//! Activate, Revoke and Destroy (KMIP 1.0, sections 4.18 to 4.20).

ghost use Rattle.std.specs.Prelude.{◌≡◌, IfOk};
ghost use Rattle.kmip_memory_store.specs.declared.object.Step.TheVariants.{Activate, Destroy};
ghost use Rattle.kmip_responses.specs.declared.response_payload.ResponsePayload.TheVariants as responses;
ghost use Rattle.kmip_operations.specs.Effects.{Moves, Revokes, Takes, revoking};

use crate::objects::{Objects, identifier};
use kmip_memory_store::object::{Denied, Step};
use kmip_messages::request_payload::{ObjectRequest, RevokeRequest};
use kmip_messages::response::result_reason;
use kmip_messages::response_payload::{ObjectResponse, ResponsePayload};
use kmip_messages::values::{RevocationReasonCode, revocation_reason_code};
use kmip_server::refusal::Refusal;
use std::alloc::Allocator;

// The step that a reason to revoke leads to. None for a reason that the standard doesn't have (KMIP 1.0, section 9.1.3.2.19).
fn revoking(code: RevocationReasonCode) -> Option<Step>
    ensures { result ≡ revoking code.number }
{
    let number = code.number;
    if number == 2 || number == 3 {
        return Some(Step::Compromise);
    }
    if number == 0 || number >= 8 {
        return None;
    }
    Some(Step::Deactivate)
}

impl<K: Allocator + Copy> Objects<K> {
    // Takes a step of an object's life.
    fn take<A: Allocator>(
        &mut self,
        alloc: A,
        name: &Option<String<A>>,
        step: Step,
        now: i64,
    ) -> Result<ObjectResponse<A>, Refusal>
        ensures { Takes step now name.now self.old result self.new }
    {
        let (id, _) = self.find(name)?;
        let unique_identifier = identifier(alloc, id)?;
        match self.store.take(id, step, now) {
            Ok(()) => Ok(ObjectResponse { unique_identifier }),
            Err(Denied::NotFound) => Err(Refusal::new(
                result_reason::ITEM_NOT_FOUND,
                "there is no such object",
            )),
            Err(Denied::WrongState) => Err(Refusal::new(
                result_reason::PERMISSION_DENIED,
                "the state of the object does not allow this",
            )),
        }
    }

    /// Puts an object in use. Refused with Item Not Found if there is none, and with Permission Denied if it isn't Pre-Active (KMIP 1.0,
    /// section 11.19).
    pub fn activate<A: Allocator>(
        &mut self,
        alloc: A,
        asked: &ObjectRequest<A>,
        now: i64,
    ) -> Result<ResponsePayload<A>, Refusal>
        ensures { Moves Activate now asked.now.unique_identifier responses.Activate self.old result self.new }
    {
        let done = self.take(alloc, &asked.unique_identifier, Step::Activate, now)?;
        Ok(ResponsePayload::Activate(done))
    }

    /// Takes an object out of use, or notes that others may know it, by the reason that is given. Refused with Item Not Found if there is
    /// none, with Invalid Field for a reason that the standard doesn't have, and with Permission Denied if its state doesn't allow it
    /// (KMIP 1.0, section 11.20).
    pub fn revoke<A: Allocator>(
        &mut self,
        alloc: A,
        asked: &RevokeRequest<A>,
        now: i64,
    ) -> Result<ResponsePayload<A>, Refusal>
        ensures { Revokes now asked.now self.old result self.new }
    {
        let Some(step) = revoking(asked.revocation_reason.code) else {
            return Err(Refusal::new(
                result_reason::INVALID_FIELD,
                "the standard has no such reason",
            ));
        };
        let done = self.take(alloc, &asked.unique_identifier, step, now)?;
        Ok(ResponsePayload::Revoke(done))
    }

    /// Gives up an object's material. Refused with Item Not Found if there is no such object, and with Permission Denied if it is in use,
    /// or that was done before (KMIP 1.0, section 11.21).
    pub fn destroy<A: Allocator>(
        &mut self,
        alloc: A,
        asked: &ObjectRequest<A>,
        now: i64,
    ) -> Result<ResponsePayload<A>, Refusal>
        ensures { Moves Destroy now asked.now.unique_identifier responses.Destroy self.old result self.new }
    {
        let done = self.take(alloc, &asked.unique_identifier, Step::Destroy, now)?;
        Ok(ResponsePayload::Destroy(done))
    }
}
