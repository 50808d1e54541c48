//! What a request to compare comes to: its table of names is read, and its two files are compared.

ghost use Rattle.std.specs.Prelude.{◌≡◌, ℕ, Bool, List, Option, Some};
ghost use Rattle.kmip_ttlv_types.specs.Held.{held};
ghost use Rattle.ttlv_run.specs.declared.tool.Terminal.{Terminal};
ghost use Rattle.ttlv_run.specs.Texts.{names_of};
ghost use Rattle.ttlv_run.specs.Tools.{RequestDone};

use crate::compared::{Pair, run_compared};
use crate::files::Opener;
use crate::identifiers::STANDARD_IDENTIFIERS;
use crate::memory::Memory;
use crate::request::Request;
use crate::tool::{names_in, no_memory, table};
use kmip_ttlv_names::STANDARD_TAGS;
use kmip_ttlv_types::stream::Sink;
use std::alloc::Allocator;

/// Compares the two files of a request, by the names of its table, and returns the exit status: those of [`run_compared`], and 2 for a
/// table that can't be read.
pub fn run_comparison<B: Allocator + Copy, T: Opener, O: Opener, W: Sink, E: Sink>(
    alloc: B,
    request: &Request<'_>,
    pair: Pair<'_>,
    tables: &mut T,
    opener: &mut O,
    output: &mut W,
    errors: &mut E,
) -> u8
    requires { request.now.compares ≡ Some pair }
    ensures { (terminal : Terminal) (can_fail : Bool) (input input_left : Option (List ℕ))
        → RequestDone (record { opens = T.opens; left = T.Input.left; can_fail = T.Input.can_fail })
        (record { opens = O.opens; left = O.Input.left; can_fail = O.Input.can_fail })
        request.now terminal tables.old tables.new
        (record { opener = opener.old; output = held W.emitted W.room output.old; errors = held E.emitted E.room errors.old })
        (record { opener = opener.new; output = held W.emitted W.room output.new; errors = held E.emitted E.room errors.new })
        can_fail input input_left result }
{
    let tags = match table(alloc, tables, STANDARD_TAGS, request.names, errors) {
        Ok(tags) => tags,
        Err(status) => return status,
    };
    let Ok(names) = names_in(alloc, tags.as_str(), STANDARD_IDENTIFIERS, false) else {
        return no_memory(errors);
    };
    let memory = Memory {
        input: alloc,
        rest: alloc,
    };
    run_compared(memory, request.asked, pair, &names, opener, output, errors)
}
