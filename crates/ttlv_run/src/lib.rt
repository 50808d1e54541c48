//! The program `ttlv`, but for its `main`: what the words of the command line ask for, and what is done for it, over any reader and any writers. It
//! takes an input of TTLV messages, one after the other, as raw bytes, hexadecimal, base64 or a dump, and prints them as readable lines, a page,
//! diagnostics, JSON, XML or hexadecimal, compares or checks them; or it reads diagnostics, JSON or XML back.
//!
//! The crate `clap` of the toolchain parses the words and writes the help and the usage (`command`, `request`). `tool` is the entry: it reads the
//! tables of names and secrets that the words name, and `tags` finds the tags that they ask for, by names in any `spelling`. `comparison` is that of
//! two files that are compared.
//!
//! Below it `files` is the entry for several inputs, whose names `headings` prints, and `run` for one, whatever is asked. `job` says what that is,
//! `window` holds what was read and not printed yet, `guess` finds the encoding, `digits` prints a text as it comes, which `decoder` decodes group by
//! group, `coding` says what the digits of a group stand for, `form` which bytes of a text are digits, and `misread` why it stands for no bytes.
//!
//! `messages` goes from message to message; `texts`, `lines`, `own_bytes`, `values`, `bare`, `attributes`, `dates`, `masks`, `colors` and `escape` print
//! one to any sink of texts. `find` prints messages within anything else, which ttlv_captures finds, `traffic` those of packet captures, which
//! ttlv_packets puts together, and `peers` who sent them and when. `gather` prints into memory, and makes of that the values of a path, a `page` of
//! HTML, or a `document` of XML. `compared` compares the messages of two files, whose lines `differences` marks, without what has a tag of
//! `identifiers`.
//!
//! `back` reads diagnostics back, `from_json` JSON, whose values end as `json_ends` says, and `from_xml` XML. `kind` says what an input without messages
//! looks like, and `run_error` has the reasons for statuses 2 and 3. `table` reads a file of names, `progress` reports how far the reading is, and
//! `memory` says where a run takes its memory from. Items, faults, diagnostics, JSON and XML are those of kmip_ttlv_items, kmip_ttlv_util,
//! kmip_ttlv_json and kmip_ttlv_xml.
#![tactic(auto)]

mod attributes;
mod back;
mod bare;
mod coding;
mod colors;
mod command;
mod compared;
mod comparison;
mod dates;
mod decoder;
mod differences;
mod digits;
mod document;
mod escape;
pub mod files;
mod find;
mod form;
mod from_json;
mod from_xml;
mod gather;
mod guess;
mod headings;
mod identifiers;
mod job;
mod json_ends;
mod kind;
pub mod laws;
mod lines;
mod masks;
mod memory;
mod messages;
mod misread;
mod own_bytes;
mod page;
mod peers;
pub mod progress;
mod request;
pub mod run;
mod run_error;
mod spelling;
pub mod table;
mod tags;
mod texts;
mod tool;
mod traffic;
mod values;
mod window;

pub use compared::Pair;
pub use identifiers::STANDARD_IDENTIFIERS;
pub use job::{Asked, Encoding, Job, Look, Names, Product, Strict, Task, Values};
pub use kmip_ttlv_json::Hiding;
pub use memory::Memory;
pub use page::page_of;
pub use request::{Color, Request, request_in, request_of};
pub use tool::{Terminal, report_usage, run_request};
