//! Printers, and whether they return a text.

use kmip_ttlv::PrettyPrinter;
use std::alloc::{AllocError, Allocator};

/// A printer that omits this prefix from tags.
pub fn printer<A: Allocator + Copy>(
    alloc: A,
    prefix: &str,
    closed: bool,
) -> Result<PrettyPrinter<A>, AllocError> {
    let mut printer = PrettyPrinter::new(alloc);
    printer.with_tag_prefix(String::from_str(alloc, prefix)?);
    printer.with_closed_empty(closed);
    Ok(printer)
}

/// Whether the diagnostic of the bytes is this text.
pub fn is_diagnostic<A: Allocator + Copy>(
    printer: &PrettyPrinter<A>,
    bytes: &[u8],
    text: &str,
) -> Result<bool, AllocError> {
    let shown = printer.to_diag_string(bytes)?;
    Ok(shown.as_str() == text)
}

/// Whether the diagnostic of the bytes is this text, with this count.
pub fn is_counted<A: Allocator + Copy>(
    printer: &PrettyPrinter<A>,
    bytes: &[u8],
    text: &str,
    count: usize,
) -> Result<bool, AllocError> {
    let (shown, items) = printer.to_diag_counted(bytes)?;
    Ok(shown.as_str() == text && items == count)
}

/// Whether the readable text of the bytes is this text.
pub fn is_readable<A: Allocator + Copy>(
    printer: &PrettyPrinter<A>,
    bytes: &[u8],
    text: &str,
) -> Result<bool, AllocError> {
    let shown = printer.to_string(bytes)?;
    Ok(shown.as_str() == text)
}

/// Whether these lines are what the diagnostic is read back as.
pub fn is_read_back<A: Allocator + Copy>(
    printer: &PrettyPrinter<A>,
    diagnostic: &str,
    lines: &str,
) -> Result<bool, AllocError> {
    let read = printer.from_diag_string(diagnostic)?;
    Ok(read.as_str() == lines)
}

#[test]
fn debug(rt: HostRuntime) -> Result<(), AllocError> {
    let printer = printer(rt.alloc(), "4200", true)?;
    let text = format!(in rt.alloc(); "{printer:?}")?;
    assert!(rt; text.as_str().starts_with("PrettyPrinter"));
    assert!(rt; text.as_str().contains("4200"));
    Ok(())
}
