//! Vectors of the standard and of our own for the crate `kmip_ttlv`, as tests: what values are written as, writers that fail, memory
//! that runs out, and messages that are written and read. Their types are those of ttlv_vectors. Reading by other shapes is tested in
//! reading_vectors, printing in printing_vectors, the low-level calls in types_vectors, and KMIP's messages in message_vectors.
//!
//! A test function is proved safe before it runs, and each call at a type of messages takes the prover long: so such a call is
//! made in one function, and a value that owns memory is made in place, part by part.
#![tactic(auto)]

#[cfg(test)]
mod asking;
#[cfg(test)]
mod bytes;
#[cfg(test)]
mod choosing;
#[cfg(test)]
mod lists;
#[cfg(test)]
mod low_level;
#[cfg(test)]
mod nesting;
#[cfg(test)]
mod parcels;
#[cfg(test)]
mod parts;
#[cfg(test)]
mod queries;
#[cfg(test)]
mod reading;
#[cfg(test)]
mod requesting;
#[cfg(test)]
mod writers;
#[cfg(test)]
mod writes;
#[cfg(test)]
mod writing;
