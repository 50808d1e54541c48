//! Tests of the low-level types, of errors, and of items that are written: the standard's vectors, tables of results,
//! printed texts, memory, growths that fail, and readers and writers that give or take one byte per call, are
//! interrupted, or fail.
#![tactic(auto)]

pub mod by_cursor;
#[cfg(test)]
mod failing_calls;
#[cfg(test)]
mod faulty;
#[cfg(test)]
mod fronts;
#[cfg(test)]
mod growing;
#[cfg(test)]
mod low_errors;
#[cfg(test)]
mod machine;
#[cfg(test)]
mod memory;
#[cfg(test)]
mod names;
#[cfg(test)]
mod samples;
#[cfg(test)]
mod streams;
#[cfg(test)]
mod structure;
#[cfg(test)]
mod values;
#[cfg(test)]
mod written;
