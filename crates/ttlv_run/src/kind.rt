//! What an input looks like that has no messages, by its first three bytes, where a message has its tag.

ghost use Rattle.std.specs.Prelude.{◌≡◌};
ghost use Rattle.ttlv_run.specs.Kinds.{is_capture, is_tls, kind_of, kind_words};

use kmip_ttlv_types::TtlvTag;

/// What an input looks like.
#[derive(Clone, Copy, Debug, PartialEq, Eq)]
pub enum InputKind {
    /// Packets, as tcpdump and Wireshark store them: pcap or pcapng.
    PacketCapture,
    /// Compressed bytes.
    Gzip,
    /// An encrypted connection.
    Tls,
}

// Whether a packet capture begins with these three bytes.
fn is_capture(tag: u32) -> bool
    ensures { result ≡ is_capture tag }
{
    tag == 0xA1_B2C3 || tag == 0xD4_C3B2 || tag == 0xA1_B23C || tag == 0x4D_3CB2 || tag == 0x0A_0D0D
}

// Whether a record of a TLS handshake does.
fn is_tls(tag: u32) -> bool
    ensures { result ≡ is_tls tag }
{
    tag == 0x16_0300 || tag == 0x16_0301 || tag == 0x16_0302 || tag == 0x16_0303
}

/// What an input looks like whose first three bytes are these, if they are there.
pub fn kind_of(tag: Option<TtlvTag>) -> Option<InputKind>
    ensures { result ≡ kind_of tag }
{
    let tag = *tag?;
    if is_capture(tag) {
        return Some(InputKind::PacketCapture);
    }
    if tag == 0x1F_8B08 {
        return Some(InputKind::Gzip);
    }
    if is_tls(tag) {
        return Some(InputKind::Tls);
    }
    None
}

/// The words behind those that say what is wrong.
pub fn kind_words(kind: Option<InputKind>) -> &'static str
    ensures { result.now ≡ kind_words kind }
{
    match kind {
        None => "",
        Some(InputKind::PacketCapture) => ": it looks like a packet capture",
        Some(InputKind::Gzip) => ": it looks like gzip",
        Some(InputKind::Tls) => ": it looks like TLS",
    }
}
