//! What the program's arguments ask for.

ghost use Rattle.std.specs.Prelude.{◌≡◌, ◌<◌, map, length, option_map, string_bytes};
ghost use Rattle.hex_to_txt_run.specs.Tasks.{task_of, prefixed_task, seen_task};

use std::alloc::Allocator;

/// What the program does with its input.
#[derive(Clone, Copy)]
pub enum Task<'w> {
    /// Decodes a pair of numbers, and prints them and the pair's bytes.
    Flat,
    /// Prints the readable text of a message.
    Text,
    /// Prints the diagnostic of a message: whether empty structures are closed, and the prefix omitted from tags.
    Diagnostic { closed: bool, prefix: &'w str },
    /// Prints what a diagnostic is read back as, given the prefix omitted from tags.
    ReadBack { prefix: &'w str },
}

// The task with this name, under a prefix.
fn prefixed_task<'w>(word: &str, prefix: &'w str) -> Option<Task<'w>>
    ensures { option_map seen_task result ≡ prefixed_task word.now prefix.now }
{
    match word {
        "text" => Some(Task::Text),
        "diag" => Some(Task::Diagnostic {
            closed: false,
            prefix,
        }),
        "closed" => Some(Task::Diagnostic {
            closed: true,
            prefix,
        }),
        "undiag" => Some(Task::ReadBack { prefix }),
        _ => None,
    }
}

/// The task that the arguments ask for, if any: `flat` alone, or another name with or without a prefix.
pub fn task_of<'w, B: Allocator>(words: &'w [String<B>]) -> Option<Task<'w>>
    ensures { option_map seen_task result ≡ task_of (map string_bytes words.now) }
{
    if words.len() == 2 {
        return prefixed_task(words[0].as_str(), words[1].as_str());
    }
    if words.len() != 1 {
        return None;
    }
    let word = words[0].as_str();
    if word == "flat" {
        return Some(Task::Flat);
    }
    prefixed_task(word, "")
}
