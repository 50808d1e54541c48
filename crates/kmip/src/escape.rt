//! Texts of others, as they stand in a line.

use std::alloc::{AllocError, Allocator};

/// Adds a text in which characters that can't be seen, control characters and backslashes are escaped, as `char::escape_debug` does.
pub fn push_escaped<A: Allocator>(out: &mut String<A>, text: &str) -> Result<(), AllocError> {
    for c in text.chars() {
        push_char(out, c)?;
    }
    Ok(())
}

// Adds a character. Quotes are plain: nothing is quoted here.
fn push_char<A: Allocator>(out: &mut String<A>, c: char) -> Result<(), AllocError> {
    if c == '"' || c == '\'' {
        return out.push(c);
    }
    for shown in c.escape_debug() {
        out.push(shown)?;
    }
    Ok(())
}
