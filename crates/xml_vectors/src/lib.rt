//! Tests of plain_xml.
#![tactic(auto)]

#[cfg(test)]
mod reading;
