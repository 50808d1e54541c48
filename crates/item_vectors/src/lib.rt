//! Tests of kmip_ttlv_xml.
#![tactic(auto)]

#[cfg(test)]
mod reading;
#[cfg(test)]
mod rows;
#[cfg(test)]
mod writing;
