//! Who sends to whom, and when.

/// An address of IPv6, or of IPv4 as IPv6 has it: `::ffff:192.0.2.1`.
#[derive(Clone, Copy, Debug, PartialEq, Eq, PartialOrd, Ord)]
pub struct Address {
    /// The first eight bytes, as a number.
    pub high: u64,
    /// The other eight.
    pub low: u64,
}

/// One end of a connection.
#[derive(Clone, Copy, Debug, PartialEq, Eq, PartialOrd, Ord)]
pub struct Endpoint {
    /// The address.
    pub address: Address,
    /// The TCP port.
    pub port: usize,
}

/// One direction of a connection.
#[derive(Clone, Copy, Debug, PartialEq, Eq, PartialOrd, Ord)]
pub struct Flow {
    /// Where its bytes come from.
    pub source: Endpoint,
    /// Where they go to.
    pub target: Endpoint,
}

/// When a packet was captured.
#[derive(Clone, Copy, Debug, PartialEq, Eq, PartialOrd, Ord)]
pub struct Time {
    /// The seconds since the beginning of 1970.
    pub seconds: u64,
    /// The microseconds behind that second.
    pub micros: u64,
}
