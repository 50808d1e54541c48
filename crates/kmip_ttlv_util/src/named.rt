//! Readable texts and diagnostics with names and a prefix that are lent for one call, as from a C caller or
//! from a file.

ghost use Rattle.std.specs.Prelude.{IfOk, OnOk, OnErr, ◌≡◌, ◌≤◌, ◌/◌, ◌+◌, length, string_bytes};
ghost use Rattle.kmip_ttlv_util.specs.Pretty.{IsPrinted, IsPretty};
ghost use Rattle.kmip_ttlv_util.specs.TagNames.{name_in};
ghost use Rattle.std.specs.Str.{trim_end};
ghost use Rattle.kmip_ttlv_util.specs.Lines.{indented};
ghost use Rattle.kmip_ttlv_util.specs.Undiag.{undiag, undiag_lines};
ghost use Rattle.kmip_ttlv_util.specs.Traces.{trace};
ghost use Rattle.kmip_ttlv_util.specs.Diagnostics.{hostile};
ghost use Rattle.kmip_ttlv_util.specs.PrintResults.{IsExact};
ghost use Rattle.kmip_ttlv_util.specs.ReadBack.{ReadsLongest, IsReadBack, EndsAt};

use crate::diagnostic::diagnose_to;
use crate::indentation::Indentation;
use crate::lines::LentTagMap;
use crate::pretty::print;
use crate::sink::TextSink;
use crate::undiag::{DiagnosticEnd, DiagnosticLines, read_back, read_back_to, read_counted};
use std::alloc::{AllocError, Allocator};

/// Returns the readable text of any bytes, with these names before tags.
///
/// The text is that of [`crate::PrettyPrinter::to_string`]; `closed` is whether empty structures are closed at
/// once. The only error is out of memory.
///
/// ```
/// let mut names: LentTagMap = HashMap::new(alloc);
/// assert!(rt; names.insert(TtlvTag::from([0x42, 0x00, 0x6A]), "Major").is_ok());
/// let text = text_named(alloc, &names, true, &[0x42, 0, 0x6A, 1, 0, 0, 0, 0])?;
/// assert!(rt; text.as_str() == "Tag: Major (0x42006A), Type: Structure (0x01), Data:\n");
/// ```
pub fn text_named<A: Allocator + Copy>(
    alloc: A,
    names: &LentTagMap<'_, A>,
    closed: bool,
    bytes: &[u8],
) -> Result<String<A>, AllocError>
    ensures printed { IfOk result (λ r. IsPrinted (name_in names.now) closed bytes.now (string_bytes r)) }
    ensures pretty { IfOk result (λ r. IsPretty (name_in names.now) closed bytes.now (string_bytes r)) }
{
    print(alloc, names, closed, bytes)
}

/// Appends the diagnostic of any bytes under a prefix, and returns how many items it tried to read.
///
/// The text is that of [`crate::PrettyPrinter::to_diag_string`]; `closed` is whether empty structures are closed at
/// once. The whole text is never in memory: the call allocates only the ends of the open structures, eight bytes
/// each. It returns the sink's error or out of memory; a beginning of the text may have been appended then.
///
/// ```
/// let mut text = String::new(alloc);
/// let bytes = hex::decode(alloc, "4200690100000000")?;
/// assert!(rt; push_diag(alloc, &mut text, "4200", true, &bytes)? == 1);
/// assert!(rt; text.as_str() == "69[]");
/// ```
pub fn push_diag<S: TextSink, A: Allocator + Copy>(
    alloc: A,
    out: &mut S,
    prefix: &str,
    closed: bool,
    bytes: &[u8],
) -> Result<usize, S::Error>
    ensures text { OnOk result (S.adds out.old (hostile prefix.now closed (length bytes.now) (trace closed bytes.now))
        out.new) }
    ensures broken { OnErr result (S.breaks out.old (hostile prefix.now closed (length bytes.now) (trace closed bytes.now))
        out.new) }
    ensures exact { IsExact prefix.now closed bytes.now
        (hostile prefix.now closed (length bytes.now) (trace closed bytes.now)) }
    ensures count { IfOk result (λ count. count ≡ length (trace closed bytes.now)) }
    ensures bounded { IfOk result (λ count. count ≤ length bytes.now / 8 + 1) }
{
    diagnose_to(out, alloc, prefix, closed, bytes)
}

/// Reads a diagnostic under a prefix back as lines, with these names before tags.
///
/// The text is that of [`crate::PrettyPrinter::from_diag_string`]. The only error is out of memory.
///
/// ```
/// let lines = read_back_named(alloc, "4200", &names, "6A[]")?; // names: 42006A is "Major"
/// assert!(rt; lines.as_str() == "Tag: Major (0x42006A), Type: Structure (0x01), Data:");
/// ```
pub fn read_back_named<A: Allocator + Copy>(
    alloc: A,
    prefix: &str,
    names: &LentTagMap<'_, A>,
    text: &str,
) -> Result<String<A>, AllocError>
    ensures undiag { IfOk result (λ r. string_bytes r ≡ undiag (name_in names.now) prefix.now text.now) }
    ensures longest { IfOk result (λ r. ReadsLongest (name_in names.now) prefix.now text.now (string_bytes r)) }
    ensures redacted { IfOk result (λ r. IsReadBack (name_in names.now) prefix.now text.now (string_bytes r)) }
{
    read_back(alloc, prefix, names, text)
}

/// The same with this indentation. It also returns where reading ended: how many bytes of the diagnostic were used, and
/// how many structures were open there. A diagnostic is whole if and only if all of it was used and none was open.
///
/// The only error is out of memory.
///
/// ```
/// let none: LentTagMap = HashMap::new(alloc);
/// let lines = read_back_counted(alloc, "", &none, Indentation::Full, "AAAAAA[BBBBBBn]")?;
/// assert!(rt; lines.used == 15 && lines.depth == 0);
/// ```
pub fn read_back_counted<A: Allocator + Copy>(
    alloc: A,
    prefix: &str,
    names: &LentTagMap<'_, A>,
    indentation: Indentation,
    text: &str,
) -> Result<DiagnosticLines<A>, AllocError>
    ensures text { IfOk result (λ r. string_bytes r.text
        ≡ trim_end (undiag_lines (indented indentation (name_in names.now)) prefix.now text.now)) }
    ensures ends { IfOk result (λ r. EndsAt (indented indentation (name_in names.now)) prefix.now text.now
        (undiag_lines (indented indentation (name_in names.now)) prefix.now text.now) r.used r.depth) }
{
    read_counted(alloc, prefix, names, indentation, text)
}

/// Appends the text of [`read_back_counted`], and returns where reading ended.
///
/// The whole text is never in memory: at most a part of the diagnostic is kept. It allocates only for a tag
/// that isn't six digits, and frees that at once. It returns the sink's error or out of memory; a beginning
/// of the text may have been appended then.
///
/// ```
/// let mut text = String::new(alloc);
/// let none: LentTagMap = HashMap::new(alloc);
/// let end = push_read_back(alloc, &mut text, "4200", &none, Indentation::Full, "24eFF:")?;
/// assert!(rt; end.used == 6 && text.as_str() == "Tag: 0x420024, Type: Enumeration (0x05), Data: FF");
/// ```
pub fn push_read_back<S: TextSink, A: Allocator + Copy>(
    alloc: A,
    out: &mut S,
    prefix: &str,
    names: &LentTagMap<'_, A>,
    indentation: Indentation,
    text: &str,
) -> Result<DiagnosticEnd, S::Error>
    ensures text { OnOk result (S.adds out.old
        (trim_end (undiag_lines (indented indentation (name_in names.now)) prefix.now text.now)) out.new) }
    ensures broken { OnErr result (S.breaks out.old
        (trim_end (undiag_lines (indented indentation (name_in names.now)) prefix.now text.now)) out.new) }
    ensures ends { IfOk result (λ end. EndsAt (indented indentation (name_in names.now)) prefix.now text.now
        (undiag_lines (indented indentation (name_in names.now)) prefix.now text.now) end.used end.depth) }
{
    read_back_to(alloc, out, prefix, names, indentation, text)
}
