//! Runs in memory, and the messages that they are tried on.

use kmip_ttlv_names::{
    STANDARD_TAGS, standard_masks, standard_names, standard_secrets, standard_values, tags_by_name,
};
use std::alloc::{AllocError, Allocator, Global};
use std::collections::HashMap;
use ttlv_run::run::run;
use ttlv_run::{Asked, Encoding, Memory, Names, Task};

/// A version of the protocol: two numbers.
pub const VERSION: &str =
    "420069010000002042006A0200000004000000010000000042006B02000000040000000000000000";

/// The lines that [`VERSION`] is shown as, with the standard's names.
pub const VERSION_LINES: &str =
    "Tag: Protocol Version (0x420069), Type: Structure (0x01), Data:\n  Tag: Protocol Version Major (0x42006A), Type: Integer (0x02), Data: 0x000001 (1)\n  Tag: Protocol Version Minor (0x42006B), Type: Integer (0x02), Data: 0x000000 (0)\n";

/// Lines, with every value hidden.
pub const HIDDEN_LINES: &str =
    "Tag: Protocol Version (0x420069), Type: Structure (0x01), Data:\n  Tag: Protocol Version Major (0x42006A), Type: Integer (0x02), Data: <redacted>\n  Tag: Protocol Version Minor (0x42006B), Type: Integer (0x02), Data: <redacted>\n";

/// The response to a request that created a key (the standard's use cases, 3.1.1).
pub const CREATE_RESPONSE: &str =
    "42007B01000000C042007A0100000048420069010000002042006A0200000004000000010000000042006B020000000400000000000000004200920900000008000000004AFBE7C242000D0200000004000000010000000042000F010000006842005C0500000004000000010000000042007F0500000004000000000000000042007C010000004042005705000000040000000200000000420094070000002466633838333364652D373064322D346563652D623036332D66656465336133633539666500000000";

/// What a run wrote, and its status.
#[derive(Drop)]
pub struct Outcome {
    pub status: u8,
    pub output: Vec<u8>,
    pub errors: Vec<u8>,
}

impl Outcome {
    /// Whether the outcome is this.
    pub fn is(&self, status: u8, output: &str, errors: &str) -> bool {
        self.status == status
            && self.output.as_slice() == output.as_bytes()
            && self.errors.as_slice() == errors.as_bytes()
    }

    /// Whether the outcome is this, with a beginning of this text as the output.
    pub fn begins(&self, status: u8, text: &str, errors: &str) -> bool {
        self.status == status
            && text.as_bytes().starts_with(self.output.as_slice())
            && self.errors.as_slice() == errors.as_bytes()
    }
}

/// A text `times` times, without separators.
pub fn repeated(alloc: Global, text: &str, times: u64) -> Result<String, AllocError> {
    let mut all = String::new(alloc);
    for _ in 0..times {
        all.push_str(text)?;
    }
    Ok(all)
}

/// One allocator for all of a run's memory.
pub fn of<A: Allocator + Copy>(heap: A) -> Memory<A, A> {
    Memory {
        input: heap,
        rest: heap,
    }
}

/// The standard's names of tags, values and bits, and its secret tags. Fails if memory runs out.
pub fn names_in<A: Allocator + Copy>(heap: A) -> Result<Names<'static, A>, AllocError> {
    let (Ok(tags), Ok(values)) = (standard_names(heap), standard_values(heap)) else {
        return Err(AllocError);
    };
    let (Ok(masks), Ok(secrets)) = (standard_masks(heap), standard_secrets(heap)) else {
        return Err(AllocError);
    };
    Ok(Names {
        tags,
        by_name: tags_by_name(heap, STANDARD_TAGS)?,
        values,
        masks,
        own: HashMap::new(heap),
        secrets,
        words: None,
    })
}

/// No names. Takes no memory.
pub fn no_names<A: Allocator + Copy>(heap: A) -> Names<'static, A> {
    Names {
        tags: HashMap::new(heap),
        by_name: HashMap::new(heap),
        values: HashMap::new(heap),
        masks: HashMap::new(heap),
        own: HashMap::new(heap),
        secrets: HashMap::new(heap),
        words: None,
    }
}

/// A run on an input in memory.
pub fn run_asked<A: Allocator + Copy>(
    heap: A,
    alloc: Global,
    names: &Names<'_, A>,
    asked: Asked<'_>,
    input: &[u8],
) -> Outcome {
    let mut input = input;
    let mut output = Vec::new(alloc);
    let mut errors = Vec::new(alloc);
    let status = run(
        of(heap),
        asked,
        "capture",
        names,
        &mut input,
        &mut output,
        &mut errors,
    );
    Outcome {
        status,
        output,
        errors,
    }
}

/// A run that prints, with the standard's names.
pub fn run_with<A: Allocator + Copy>(
    heap: A,
    alloc: Global,
    task: Task<'_>,
    encoding: Encoding,
    input: &[u8],
) -> Result<Outcome, AllocError> {
    let asked = Asked::Print { task, encoding };
    Ok(run_asked(heap, alloc, &names_in(heap)?, asked, input))
}

/// A run that reads diagnostics back, with the standard's names.
pub fn back_with<A: Allocator + Copy>(
    heap: A,
    alloc: Global,
    prefix: &str,
    input: &[u8],
) -> Result<Outcome, AllocError> {
    let asked = Asked::ReadBack { prefix };
    Ok(run_asked(heap, alloc, &names_in(heap)?, asked, input))
}
