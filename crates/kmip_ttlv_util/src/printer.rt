//! The printer: its tag prefix, tag names and setting, and its calls.

ghost use Rattle.std.specs.Prelude.{◌≡◌, ℕ, ◌+◌, ◌/◌, ◌≤◌, ◌<◌, Bool, false, List, [], length, IfOk, IfErr, string_bytes};
ghost use Rattle.std.specs.Borrow.{sem};
ghost use Rattle.kmip_ttlv_types.specs.Held.{held};
ghost use Rattle.kmip_ttlv_util.specs.Traces.{trace};
ghost use Rattle.kmip_ttlv_util.specs.Diagnostics.{hostile};
ghost use Rattle.kmip_ttlv_util.specs.CheckedDiagnostics.{ShowsMessage, ShowsNothing};
ghost use Rattle.kmip_ttlv_util.specs.PrintResults.{IsExact};
ghost use Rattle.kmip_ttlv_util.specs.Pieces.{WritesText, IsReadable, IsDiagnostic};
ghost use Rattle.kmip_ttlv_util.specs.Pretty.{IsPrinted, IsPretty};
ghost use Rattle.kmip_ttlv_util.specs.Printers.{prefix_of, names_of, closes_empty};
ghost use Rattle.kmip_ttlv_util.specs.TagNames.{name_in, no_names};
ghost use Rattle.kmip_ttlv_util.specs.Undiag.{undiag};
ghost use Rattle.kmip_ttlv_util.specs.ReadBack.{ReadsLongest, IsReadBack};

use crate::checked::CheckedError;
use crate::diagnostic::{diagnose, write_diagnostic};
use crate::lines::TagMap;
use crate::pretty::{print, write_printed};
use crate::undiag::read_back;
use kmip_ttlv_items::find_fault;
use kmip_ttlv_types::stream::Sink;
use std::alloc::{AllocError, Allocator, Global};
use std::collections::HashMap;
use std::io;

/// Prints TTLV bytes as readable text and as redacted diagnostics, and reads diagnostics back.
///
/// Its calls allocate with the allocator given to [`PrettyPrinter::new`]. Unless they write to a writer, the only
/// error is out of memory.
///
/// ```
/// let mut printer = PrettyPrinter::new(alloc);
/// printer.with_tag_prefix(String::from_str(alloc, "4200")?);
/// let bytes = hex::decode(alloc, "420069010000001042005C05000000040000001400000000")?;
/// assert!(rt; printer.to_diag_string(&bytes)?.as_str() == "69[5Ce14:]");
/// ```
#[derive(Drop)]
#[derive_where(Debug)]
pub struct PrettyPrinter<A: Allocator = Global> {
    prefix: String<A>,
    names: TagMap<A>,
    closed_empty: bool,
}

impl<A: Allocator + Copy> PrettyPrinter<A> {
    ghost use Rattle.kmip_ttlv_util.specs.Lending.{stays};

    /// Returns a printer with an empty prefix and no names, for which empty structures stay open.
    pub fn new(alloc: A) -> PrettyPrinter<A>
        ensures prefix { prefix_of result ≡ [] }
        ensures names { names_of result ≡ no_names }
        ensures setting { closes_empty result ≡ false }
    {
        PrettyPrinter {
            prefix: String::new(alloc),
            names: HashMap::new(alloc),
            closed_empty: false,
        }
    }

    /// Sets the prefix, in uppercase hexadecimal digits, that diagnostics omit from tags that begin with it, and
    /// that is put before the digits when a diagnostic is read back.
    ///
    /// ```
    /// let bytes = hex::decode(alloc, "AAAAAA0100000010BBBBBB02000000040000000300000000")?;
    /// printer.with_tag_prefix(String::from_str(alloc, "AAAAAA")?);
    /// assert!(rt; printer.to_diag_string(&bytes)?.as_str() == "[BBBBBBi]");
    /// ```
    pub fn with_tag_prefix(&mut self, prefix: String<A>) -> &Self
        ensures* stays { sem 𝓛 (stays A.row A.Allocator self.entry result) }
        ensures prefix { prefix_of result.now ≡ string_bytes prefix }
        ensures names { names_of result.now ≡ names_of self.old }
        ensures setting { closes_empty result.now ≡ closes_empty self.old }
    {
        self.prefix = prefix;
        self
    }

    /// Sets the names that readable texts print before tags.
    ///
    /// ```
    /// let mut names: TagMap = HashMap::new(alloc);
    /// assert!(rt; names.insert(TtlvTag::from([0x42, 0x00, 0x69]), "Protocol Version").is_ok());
    /// printer.with_tag_map(names);
    /// let lines = printer.from_diag_string("420069i")?;
    /// assert!(rt; lines.as_str() == "Tag: Protocol Version (0x420069), Type: Integer (0x02)");
    /// ```
    pub fn with_tag_map(&mut self, names: TagMap<A>) -> &Self
        ensures* stays { sem 𝓛 (stays A.row A.Allocator self.entry result) }
        ensures prefix { prefix_of result.now ≡ prefix_of self.old }
        ensures names { names_of result.now ≡ name_in names.entry }
        ensures setting { closes_empty result.now ≡ closes_empty self.old }
    {
        self.names = names;
        self
    }

    /// Sets whether an empty structure is closed at once, as any other is at its end. If not, it
    /// stays open until the structure around it ends.
    ///
    /// ```
    /// let bytes = hex::decode(alloc, "4200690100000000")?;
    /// printer.with_closed_empty(true);
    /// assert!(rt; printer.to_diag_string(&bytes)?.as_str() == "420069[]");
    /// ```
    pub fn with_closed_empty(&mut self, closed: bool) -> &Self
        ensures* stays { sem 𝓛 (stays A.row A.Allocator self.entry result) }
        ensures prefix { prefix_of result.now ≡ prefix_of self.old }
        ensures names { names_of result.now ≡ names_of self.old }
        ensures setting { closes_empty result.now ≡ closed }
    {
        self.closed_empty = closed;
        self
    }

    /// Returns a printer with the same prefix, names and setting. The only error is out of memory.
    pub fn clone(&self) -> Result<PrettyPrinter<A>, AllocError>
        ensures prefix { IfOk result (λ p. prefix_of p ≡ prefix_of self.now) }
        ensures names { IfOk result (λ p. names_of p ≡ names_of self.now) }
        ensures setting { IfOk result (λ p. closes_empty p ≡ closes_empty self.now) }
    {
        Ok(PrettyPrinter {
            prefix: self.prefix.clone()?,
            names: self.names.clone()?,
            closed_empty: self.closed_empty,
        })
    }

    /// Returns the readable text of any bytes: a line for each item, indented by two spaces a level.
    ///
    /// An empty structure that stays open is followed by the line `WARNING: TTLV structure length is zero`.
    /// If an item can't be read, the text ends there with `ERROR: ` and a message; if an item goes past the
    /// end of its structure, and no empty one stays open, it ends after that item with an error line too.
    ///
    /// The text of n headers, each in the structure before it, has about n² bytes: a gigabyte for 256,000 bytes,
    /// which are 32,000 such headers. For untrusted input, give the printer an allocator with a limit.
    ///
    /// ```
    /// let bytes = hex::decode(alloc, "AAAAAA0100000010BBBBBB07000000016100000000000000")?;
    /// let text = printer.to_string(&bytes)?;
    /// assert!(rt; text.as_str().starts_with("Tag: 0xAAAAAA, Type: Structure (0x01), Data:\n"));
    /// assert!(rt; text.as_str().ends_with("\n  Tag: 0xBBBBBB, Type: TextString (0x07), Data: a\n"));
    /// ```
    pub fn to_string(&self, bytes: &[u8]) -> Result<String<A>, AllocError>
        ensures printed { IfOk result (λ r. IsPrinted (names_of self.now) (closes_empty self.now)
            bytes.now (string_bytes r)) }
        ensures pretty { IfOk result (λ r. IsPretty (names_of self.now) (closes_empty self.now)
            bytes.now (string_bytes r)) }
    {
        print(
            *self.prefix.allocator(),
            &self.names,
            self.closed_empty,
            bytes,
        )
    }

    /// Writes the text of [`PrettyPrinter::to_string`] to a writer, in pieces: the whole text is never in memory.
    /// It uses 8,192 bytes of stack, and allocates eight bytes for each open structure.
    ///
    /// It returns the writer's error if the writer fails, `WriteZero` if it takes no byte, and `OutOfMemory` if
    /// there is no memory for the open structures. Memory that has room for the text, as a `MemorySink` with that
    /// capacity, doesn't fail. On error a beginning of the text may have been written.
    /// Interrupted writes are retried, as often as a 64-bit counter allows. The writer is not flushed.
    ///
    /// ```
    /// let mut written = Vec::new(alloc);
    /// printer.write_text(&mut written, b"")?;
    /// assert!(rt; written.as_slice() == "ERROR: cannot read the item at byte 0".as_bytes());
    /// ```
    pub fn write_text<S: Sink>(&self, writer: &mut S, bytes: &[u8]) -> io::Result<()>
        ensures { WritesText (IsReadable (names_of self.now) (closes_empty self.now) bytes.now)
            (held S.emitted S.room writer.old) (held S.emitted S.room writer.new) result }
    {
        write_printed(
            writer,
            *self.prefix.allocator(),
            &self.names,
            self.closed_empty,
            bytes,
        )
    }

    /// Returns the diagnostic of any bytes, and how many items it tried to read.
    ///
    /// The text is that of [`PrettyPrinter::to_diag_string`]. An item that can't be read counts too; there are
    /// at most `bytes.len() / 8 + 1`.
    ///
    /// ```
    /// let (text, count) = printer.to_diag_counted(b"")?;
    /// assert!(rt; text.as_str() == "ERR" && count == 1);
    /// ```
    pub fn to_diag_counted(&self, bytes: &[u8]) -> Result<(String<A>, usize), AllocError>
        ensures hostile { IfOk result (λ r. string_bytes r.0
            ≡ hostile (prefix_of self.now) (closes_empty self.now) (length bytes.now)
            (trace (closes_empty self.now) bytes.now)) }
        ensures exact { IfOk result (λ r. IsExact (prefix_of self.now) (closes_empty self.now)
            bytes.now (string_bytes r.0)) }
        ensures count { IfOk result (λ r. r.1 ≡ length (trace (closes_empty self.now) bytes.now)) }
        ensures bounded { IfOk result (λ r. r.1 ≤ length bytes.now / 8 + 1) }
    {
        diagnose(
            *self.prefix.allocator(),
            self.prefix.as_str(),
            self.closed_empty,
            bytes,
        )
    }

    /// Returns the diagnostic of any bytes: the tag and type of each item, the values of enumerations, and
    /// where structures open and close. It shows no other value.
    ///
    /// The text depends on the number of bytes and on their trace alone. It ends with `ERR` at an item that can't be
    /// read, also where a message is well-formed: `420078[ERR` is that of a message without items, whose structure stays
    /// open. Of a message with more bytes behind it it is the message's. [`PrettyPrinter::to_diag_checked`] tells them apart.
    ///
    /// ```
    /// let bytes = hex::decode(alloc, "42006A02000000040000000100000000")?;
    /// assert!(rt; printer.to_diag_string(&bytes)?.as_str() == "42006AiERR");
    /// ```
    pub fn to_diag_string(&self, bytes: &[u8]) -> Result<String<A>, AllocError>
        ensures hostile { IfOk result (λ r. string_bytes r
            ≡ hostile (prefix_of self.now) (closes_empty self.now) (length bytes.now)
            (trace (closes_empty self.now) bytes.now)) }
        ensures exact { IfOk result (λ r. IsExact (prefix_of self.now) (closes_empty self.now)
            bytes.now (string_bytes r)) }
    {
        let (text, _) = self.to_diag_counted(bytes)?;
        Ok(text)
    }

    /// Returns the diagnostic of bytes that are exactly one whole well-formed message, or the first fault.
    ///
    /// The text is that of [`PrettyPrinter::to_diag_string`], which prints any bytes: of malformed ones up to the
    /// first item that it can't read, and of several messages the first one's. This call prints nothing of such bytes.
    ///
    /// Errors: `Malformed`, with the fault that [`kmip_ttlv_items::find_fault`] finds; `OutOfMemory`.
    ///
    /// ```
    /// let version = hex::decode(alloc, "420069010000001042005C05000000040000001400000000")?;
    /// assert!(rt; printer.to_diag_checked(&version)?.as_str() == "420069[42005Ce14:]");
    /// let cut = Fault { offset: 8, kind: FaultKind::Cut };
    /// assert!(rt; printer.to_diag_checked(&version[..16]) == Err(CheckedError::Malformed(cut)));
    /// ```
    #[tactic(auto, using(crate::proofs::OpenOutlines::shown_message))]
    pub fn to_diag_checked(&self, bytes: &[u8]) -> Result<String<A>, CheckedError>
        ensures ok { IfOk result (λ r. ShowsMessage (prefix_of self.now) (closes_empty self.now)
            bytes.now (string_bytes r)) }
        ensures err { IfErr result (λ e. ShowsNothing bytes.now e) }
    {
        if let Some(fault) = find_fault(*self.prefix.allocator(), bytes)? {
            return Err(CheckedError::Malformed(fault));
        }
        Ok(self.to_diag_string(bytes)?)
    }

    /// Writes the text of [`PrettyPrinter::to_diag_string`] to a writer, in pieces: the whole text is never in
    /// memory. It uses 8,192 bytes of stack, and allocates eight bytes for each open structure.
    ///
    /// Its errors are those of [`PrettyPrinter::write_text`]; a beginning of the text may have been written.
    ///
    /// ```
    /// let mut written = Vec::new(alloc);
    /// printer.write_diag(&mut written, b"")?;
    /// assert!(rt; written.as_slice() == "ERR".as_bytes());
    /// ```
    pub fn write_diag<S: Sink>(&self, writer: &mut S, bytes: &[u8]) -> io::Result<()>
        ensures { WritesText (IsDiagnostic (prefix_of self.now) (closes_empty self.now) bytes.now)
            (held S.emitted S.room writer.old) (held S.emitted S.room writer.new) result }
    {
        write_diagnostic(
            writer,
            *self.prefix.allocator(),
            self.prefix.as_str(),
            self.closed_empty,
            bytes,
        )
    }

    /// Reads a diagnostic back as lines: the tag and type of each item, the values of enumerations,
    /// and `<redacted>` in place of any other value.
    ///
    /// Reading stops where the text is no diagnostic, and the lines up to there are returned. The time is
    /// linear in the text and in the lines, which for n nested structures have about n² bytes. For untrusted
    /// input, give the printer an allocator with a limit.
    ///
    /// ```
    /// let lines = printer.from_diag_string("AAAAAA[BBBBBBn]")?;
    /// assert!(rt; lines.as_str().ends_with("Tag: 0xBBBBBB, Type: Interval (0x0A), Data: <redacted>"));
    /// ```
    pub fn from_diag_string(&self, text: &str) -> Result<String<A>, AllocError>
        ensures undiag { IfOk result (λ r. string_bytes r ≡ undiag (names_of self.now) (prefix_of self.now) text.now) }
        ensures longest { IfOk result (λ r. ReadsLongest (names_of self.now) (prefix_of self.now)
            text.now (string_bytes r)) }
        ensures redacted { IfOk result (λ r. IsReadBack (names_of self.now) (prefix_of self.now)
            text.now (string_bytes r)) }
    {
        read_back(
            *self.prefix.allocator(),
            self.prefix.as_str(),
            &self.names,
            text,
        )
    }
}
