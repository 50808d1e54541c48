//! Tests of the tool `ttlv`: what a run prints of worked messages in each encoding, the status and the
//! error line of malformed or undecodable input, the results of failing allocations, failing writers and
//! closed pipes, the memory of long lines, what is printed of long inputs, packet captures and raw messages, texts and diagnostics that come in pieces, what the
//! command line asks for, what each of its options comes to, and pages of HTML.
#![tactic(auto)]

#[cfg(test)]
mod attributes;
#[cfg(test)]
mod backs;
#[cfg(test)]
mod captures;
#[cfg(test)]
mod dumps;
#[cfg(test)]
mod failing;
#[cfg(test)]
mod faults;
#[cfg(test)]
mod files;
#[cfg(test)]
mod finds;
#[cfg(test)]
mod json_memory;
#[cfg(test)]
mod jsons;
#[cfg(test)]
mod long;
#[cfg(test)]
mod looks;
#[cfg(test)]
mod names;
#[cfg(test)]
mod own;
#[cfg(test)]
mod pages;
#[cfg(test)]
mod pieces;
#[cfg(test)]
mod printed;
#[cfg(test)]
mod read_jsons;
#[cfg(test)]
mod runs;
#[cfg(test)]
mod texts;
#[cfg(test)]
mod tool;
#[cfg(test)]
mod words;
#[cfg(test)]
mod xmls;
