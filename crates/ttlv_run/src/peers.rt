//! Who sent a message to whom, and when, as it stands in a line.

ghost use Rattle.std.specs.Prelude.{◌≡◌, ◌++◌, OnOk, IfOk, string_bytes};
ghost use Rattle.ttlv_run.specs.Peers.{four_groups, is_four, octets_text, address_text, end_text, flow_text, stamp_text, time_text_of, message_line};

use crate::dates::push_date;
use crate::escape::push_word_hex;
use itoa::Buffer;
use std::alloc::{AllocError, Allocator};
use ttlv_packets::{Address, Endpoint, Flow, Message, Time};

// Four groups of an address of IPv6, with colons.
fn push_groups<A: Allocator>(out: &mut String<A>, n: u64) -> Result<(), AllocError>
    ensures { OnOk result (string_bytes out.new ≡ string_bytes out.old ++ four_groups n) }
{
    push_word_hex(out, (n / 281_474_976_710_656) as u32)?;
    out.push_str(":")?;
    push_word_hex(out, (n / 4_294_967_296 % 65_536) as u32)?;
    out.push_str(":")?;
    push_word_hex(out, (n / 65_536 % 65_536) as u32)?;
    out.push_str(":")?;
    push_word_hex(out, (n % 65_536) as u32)?;
    Ok(())
}

// Whether an address is one of IPv4.
fn is_four(address: Address) -> bool
    ensures { result ≡ is_four address }
{
    address.high == 0 && address.low / 4_294_967_296 == 0xFFFF
}

// The four bytes of an address of IPv4.
fn push_octets<A: Allocator>(out: &mut String<A>, n: u64) -> Result<(), AllocError>
    ensures { OnOk result (string_bytes out.new ≡ string_bytes out.old ++ octets_text n) }
{
    out.push_str(Buffer::new().format(n / 16_777_216 % 256))?;
    out.push_str(".")?;
    out.push_str(Buffer::new().format(n / 65_536 % 256))?;
    out.push_str(".")?;
    out.push_str(Buffer::new().format(n / 256 % 256))?;
    out.push_str(".")?;
    out.push_str(Buffer::new().format(n % 256))?;
    Ok(())
}

fn push_address<A: Allocator>(out: &mut String<A>, address: Address) -> Result<(), AllocError>
    ensures { OnOk result (string_bytes out.new ≡ string_bytes out.old ++ address_text address) }
{
    if is_four(address) {
        return push_octets(out, address.low);
    }
    out.push_str("[")?;
    push_groups(out, address.high)?;
    out.push_str(":")?;
    push_groups(out, address.low)?;
    out.push_str("]")?;
    Ok(())
}

fn push_end<A: Allocator>(out: &mut String<A>, end: Endpoint) -> Result<(), AllocError>
    ensures { OnOk result (string_bytes out.new ≡ string_bytes out.old ++ end_text end) }
{
    push_address(out, end.address)?;
    out.push_str(":")?;
    out.push_str(Buffer::new().format(end.port))?;
    Ok(())
}

/// Adds who sends to whom.
pub fn push_flow<A: Allocator>(out: &mut String<A>, flow: Flow) -> Result<(), AllocError>
    ensures { OnOk result (string_bytes out.new ≡ string_bytes out.old ++ flow_text flow) }
{
    push_end(out, flow.source)?;
    out.push_str(" > ")?;
    push_end(out, flow.target)?;
    Ok(())
}

fn push_stamp<A: Allocator>(out: &mut String<A>, time: Time) -> Result<(), AllocError>
    ensures { OnOk result (string_bytes out.new ≡ string_bytes out.old ++ stamp_text time) }
{
    push_date(out, time.seconds)?;
    out.push_str(" +")?;
    out.push_str(Buffer::new().format(time.micros))?;
    out.push_str("us")?;
    Ok(())
}

fn push_time<A: Allocator>(out: &mut String<A>, time: Option<Time>) -> Result<(), AllocError>
    ensures { OnOk result (string_bytes out.new ≡ string_bytes out.old ++ time_text_of time) }
{
    match time {
        Some(time) => push_stamp(out, time),
        None => out.push_str(" no known time"),
    }
}

/// The line in front of a message of a capture: when its last byte was captured, and who sends it to whom.
///
/// It fails only if memory runs out.
#[tactic(auto, unfolding(crate::specs::Peers::message_line))]
pub fn message_line<A: Allocator>(alloc: A, message: &Message) -> Result<String<A>, AllocError>
    ensures { IfOk result (λ line. string_bytes line ≡ message_line message.now) }
{
    let mut line = String::new(alloc);
    line.push_str("At")?;
    push_time(&mut line, message.time)?;
    line.push_str(" ")?;
    push_flow(&mut line, message.flow)?;
    line.push_str("\n")?;
    Ok(line)
}
