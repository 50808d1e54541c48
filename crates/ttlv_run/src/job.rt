//! What a run is to do, and the names that it prints.

ghost use Rattle.std.specs.Prelude.{◌≡◌};
ghost use Rattle.ttlv_run.specs.Misreadings.{encoding_words};

use kmip_ttlv_json::Hiding;
use kmip_ttlv_names::{TagsByName, ValueMap};
use kmip_ttlv_util::LentTagMap;
use kmip_words::Words;
use std::alloc::{Allocator, Global};

/// What a line says of the value of a leaf.
#[derive(Clone, Copy, Debug, PartialEq, Eq)]
pub enum Values {
    /// Nothing, but of an enumeration's: `<redacted>` stands there.
    Hidden,
    /// Nothing: `<redacted>` stands there.
    Secret,
    /// The value; control characters and backslashes of a text as Rust's `char::escape_debug` writes
    /// them, so that a text stays in its line and sends a terminal nothing.
    Escaped,
    /// The same, but `<left out>` in place of a value that differs in each run: a date, and what has a tag of identifiers. The tags of
    /// identifiers are [`Names::secrets`] then.
    Lasting,
    /// The value, and a text as it is.
    Raw,
}

/// How readable lines are printed.
#[derive(Clone, Copy, Debug, PartialEq, Eq)]
pub struct Look<'w> {
    /// What is said of values.
    pub values: Values,
    /// Whether values are hidden of items whose tags are secret, and of what is in them.
    pub secrets_hidden: bool,
    /// Whether the offset of an item, in bytes from the first message's first, and a tab stand in front of its line.
    pub offsets: bool,
    /// Whether the length of an item's value, in bytes and without padding, and a tab stand in front of its line, behind the offset.
    pub lengths: bool,
    /// Whether the bytes of an item in hexadecimal and a tab stand in front of its line, behind the length: of a Structure its header, of
    /// any other item its header and its value, without padding.
    pub bytes: bool,
    /// The most bytes of a Byte String that are printed, and of each value in front of a line; all where there is no limit.
    pub width: Option<usize>,
    /// Whether tags and values are coloured.
    pub colored: bool,
    /// The tags, as numbers, of the items that are printed, with what is in them; all items where none are named.
    pub only: Option<&'w [u32]>,
    /// The tags, as numbers, from a message's root to the items of which the values alone are printed, a line each; none for lines of items.
    pub path: Option<&'w [u32]>,
}

impl Look<'_> {
    /// All lines without offsets, lengths, bytes or colours, with values and whole Byte Strings, where texts are escaped.
    pub const PLAIN: Look<'static> = Look {
        values: Values::Escaped,
        secrets_hidden: false,
        offsets: false,
        lengths: false,
        bytes: false,
        width: None,
        colored: false,
        only: None,
        path: None,
    };
}

/// What is printed of a whole message; of one with a fault nothing is.
#[derive(Clone, Copy, Debug, PartialEq, Eq)]
pub enum Strict<'w> {
    /// A readable line of each item.
    Show { look: Look<'w> },
    /// Its diagnostic and a line feed, as [`Task::Diagnose`] does.
    Diagnose { closed: bool, prefix: &'w str },
    /// Its bytes in hexadecimal and a line feed.
    Hexadecimal,
    /// A line of JSON: with the standard's names, or by digits.
    Json { hiding: Hiding, named: bool },
}

/// What is printed of each message.
#[derive(Clone, Copy, Debug, PartialEq, Eq)]
pub enum Task<'w> {
    /// A readable line of each item.
    Show { look: Look<'w> },
    /// Its diagnostic and a line feed: whether empty structures are closed, and the hexadecimal digits
    /// that are left out where a tag begins with them.
    Diagnose { closed: bool, prefix: &'w str },
    /// Its bytes in hexadecimal and a line feed.
    Hexadecimal,
    /// A line of JSON, with the standard's names or by digits; nothing of a message with a fault.
    Json { hiding: Hiding, named: bool },
    /// That of whole messages alone: of a message with a fault nothing is printed, and the line on standard error doesn't
    /// tell its tag.
    Whole { strict: Strict<'w> },
    /// Nothing; with `kmip` a message is at fault too whose root is neither a Request Message nor a Response Message, and
    /// without `empty` an input that has no message.
    Check { kmip: bool, empty: bool },
}

/// What the bytes of messages stand in the input as.
#[derive(Clone, Copy, Debug, PartialEq, Eq)]
pub enum Encoding {
    /// Whichever of the others the input looks like.
    Detected,
    /// The bytes of the messages, as they are sent.
    Raw,
    /// Hexadecimal digits of either case. White space, colons, dashes, commas, quotes, `0x` and `\x` may
    /// stand between them.
    Hexadecimal,
    /// Base64 with padding (RFC 4648, section 4). White space, colons, commas and quotes may stand between
    /// its characters.
    Base64,
    /// The same with `-` and `_` in place of `+` and `/`, and padding or none (RFC 4648, section 5).
    Base64Url,
    /// Base64 with padding in lines; a line that begins with a dash is left out.
    Armoured,
    /// Lines of `xxd`, of `hexdump -C` or of `od -A x -t x1`: an offset, digits, and the text that they are.
    Dump,
    /// Lines of `tcpdump -x` or `-X` of messages without the headers of IP and TCP: indented ones are an offset with `0x`, digits, and
    /// the text that they are; others are left out.
    Packets,
    /// A packet capture, of pcap or pcapng, or as `tcpdump -x`, `-X`, `-xx` or `-XX` prints one, whose messages are those that TCP
    /// carries on this port.
    Capture { port: usize },
}

impl Encoding {
    /// What it is called.
    pub fn words(self) -> &'static str
        ensures { result.now ≡ encoding_words self }
    {
        match self {
            Encoding::Detected => "any encoding",
            Encoding::Raw => "raw",
            Encoding::Hexadecimal => "hexadecimal",
            Encoding::Base64 => "base64",
            Encoding::Base64Url => "base64url",
            Encoding::Armoured => "armoured base64",
            Encoding::Dump => "a hexadecimal dump",
            Encoding::Packets => "a dump of packets",
            Encoding::Capture { .. } => "a packet capture",
        }
    }
}

/// What is made of what was printed of an input.
#[derive(Clone, Copy, Debug, PartialEq, Eq)]
pub enum Product {
    /// It itself: the values of the items of a path. An input that has none of them is malformed.
    Values,
    /// Of messages in hexadecimal, each in a line of its own, a document of XML. An input with a text that XML can't hold is malformed.
    Document,
    /// Of readable lines without colours a page of HTML, in which structures fold.
    Page,
}

/// What is to be done with each input.
#[derive(Clone, Copy, Debug, PartialEq, Eq)]
pub enum Asked<'w> {
    /// To print its messages, which stand in it so.
    Print {
        task: Task<'w>,
        encoding: Encoding,
    },
    /// To print its messages into memory, and what is made of that when all of it was read.
    Gather {
        task: Task<'w>,
        encoding: Encoding,
        product: Product,
    },
    /// To read back its diagnostics, which leave these digits out of tags.
    ReadBack {
        prefix: &'w str,
    },
    /// To print the messages that its values of JSON are: as raw bytes, or in hexadecimal, each in a line of its own.
    FromJson {
        raw: bool,
    },
    /// To print the messages that it is the XML of, likewise.
    FromXml {
        raw: bool,
    },
    /// To print the messages that stand anywhere in it, as readable lines, each behind a line that says where it begins.
    Find {
        look: Look<'w>,
    },
}

/// What is to be printed of an input's messages.
#[derive(Clone, Copy, Debug, PartialEq, Eq)]
pub struct Job<'w> {
    /// What the input is called, in the line on standard error.
    pub name: &'w str,
    /// What is printed of each message.
    pub task: Task<'w>,
    /// What the input is.
    pub encoding: Encoding,
}

/// The names that are printed beside tags and values, and the tags whose values are secret.
#[derive(Drop)]
pub struct Names<'n, A: Allocator = Global> {
    /// The names of tags.
    pub tags: LentTagMap<'n, A>,
    /// The tags by their names: by them the values of attributes are named.
    pub by_name: TagsByName<'n, A>,
    /// The lists of enumerations' values, by tag, in the form of kmip_ttlv_names.
    pub values: LentTagMap<'n, A>,
    /// The lists of masks' bits, by tag, in the same form.
    pub masks: LentTagMap<'n, A>,
    /// A user's own names of values and of bits, which come before those of the lists.
    pub own: ValueMap<'n, A>,
    /// The tags of items whose values are secret, or differ in each run, each with a name of any kind.
    pub secrets: LentTagMap<'n, A>,
    /// The words of JSON with names. Where there are none, they are made for each message that is printed so.
    pub words: Option<Words<A>>,
}
