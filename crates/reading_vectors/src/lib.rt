//! Tests of reading that no data can say: of long messages, of types that read themselves, of readers, and of memory that runs out.
//! (What bytes are read as by a shape is tested by the data of the program `vectors`.)
//!
//! A shape is put together from the types of `sample_shapes`. `Reading` reads by such a shape, and keeps the data that was read
//! as text; `Run` keeps of a sequence its length. In `streams`, and the modules whose names begin so, a message comes from a reader.
#![tactic(auto)]

#[cfg(test)]
mod answer;
#[cfg(test)]
mod costs;
#[cfg(test)]
mod growing;
#[cfg(test)]
mod many;
#[cfg(test)]
mod reading;
#[cfg(test)]
mod response;
pub mod selves;
#[cfg(test)]
mod selves_kinds;
#[cfg(test)]
mod selves_rows;
#[cfg(test)]
mod sizes;
#[cfg(test)]
mod stream_faults;
#[cfg(test)]
mod stream_growth;
#[cfg(test)]
mod stream_rows;
#[cfg(test)]
mod stream_samples;
#[cfg(test)]
mod stream_types;
#[cfg(test)]
mod streams;
