//! Tests of the printers of the crate `kmip_ttlv`, of walks over items and of the program `hex_to_txt`: messages and texts of any size,
//! what calls cost, writers and readers that fail, and each allocation failing in turn. What is printed of messages, and read back of
//! diagnostics, are tests that are data (crates/vectors).
#![tactic(auto)]

#[cfg(test)]
mod costs;
#[cfg(test)]
mod growing;
#[cfg(test)]
mod item_walks;
#[cfg(test)]
mod long;
#[cfg(test)]
mod messages;
#[cfg(test)]
mod printers;
#[cfg(test)]
mod program;
#[cfg(test)]
mod program_faults;
#[cfg(test)]
mod sizes;
#[cfg(test)]
mod writing;
