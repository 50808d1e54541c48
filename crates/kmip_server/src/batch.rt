//! A batch: its items are done one after the other, each is answered, and an item that fails may end it.

ghost use Rattle.std.specs.Prelude.{◌≡◌, IfOk, OnErr};
ghost use Rattle.kmip_server.specs.Batches.{AreAnswers, BreaksOff};
ghost use Rattle.kmip_server.specs.Items.{Answers, IsDone, IsUnanswered, ends};

use crate::codec::Codec;
use crate::handler::Handler;
use crate::items::answer;
use kmip_messages::envelope::RequestEnvelopeItem;
use kmip_messages::response::{ResponseItem, result_status};
use std::alloc::{AllocError, Allocator};

// Whether no item is done behind this answer.
fn is_last<A: Allocator>(stops: bool, answer: &ResponseItem<A>) -> bool
    ensures { result ≡ ends stops answer.now }
{
    stops && answer.result_status == result_status::OPERATION_FAILED
}

/// Does the items of a batch in their order, and answers each. If the batch stops at errors, none is done behind the first that fails,
/// and none is answered (KMIP 1.0, section 6.13). The only error is out of memory: it breaks off at one item then, which is done at most
/// once; those before it are done, none of them ended the batch, and none behind it is done.
pub fn answer_items<D: Codec<A>, H: Handler<A>, A: Allocator + Copy>(
    handler: &mut H,
    alloc: A,
    stops: bool,
    items: Vec<RequestEnvelopeItem<A>, A>,
) -> Result<Vec<ResponseItem<A>, A>, AllocError>
    ensures answered { IfOk result (λ answers. AreAnswers (Answers (IsDone H.Does H.declaration D.ReadsItem) D.IsSound) (ends stops)
        handler.old items.items answers.items handler.new) }
    ensures breaks_off { OnErr result (BreaksOff (Answers (IsDone H.Does H.declaration D.ReadsItem) D.IsSound)
        (IsUnanswered (IsDone H.Does H.declaration D.ReadsItem)) (ends stops) handler.old items.items handler.new) }
{
    let mut answers = Vec::new(alloc);
    for item in items {
        let answer = answer::<D, H, A>(handler, alloc, item)?;
        let last = is_last(stops, &answer);
        answers.push(answer)?;
        if last {
            return Ok(answers);
        }
    }
    Ok(answers)
}
