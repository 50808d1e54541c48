//! A program that tests messages. First it reads messages of another implementation, and of `worked.py`, from standard input, a line each
//! with a name and hexadecimal digits; a line that begins with `#` is a comment. Each has to be decoded as a request or a response of `kmip_messages`, to
//! be sound, and to come back equal and as the same bytes; and so with its payloads kept as they are. Of each the operations are printed,
//! and what names them in the batch, and whether a payload is kept, since it has no type. Then it tries the messages in its modules, and
//! what is in them. What is otherwise is printed.
//!
//! `fates` says what becomes of a message, and `listing` what is in its items. `key_gets`, `object_rereads` and `registering` are tests of
//! kmip_messages, by `contents`, `kept_items` and `kept_places` of what it keeps as it is, in messages of `by_hand`, `conversions` of what
//! is made of that, and `key_messages` of create_destroy; `tally` counts them. It has no test functions: a crate with these is proved twice,
//! and most of what is proved here are the destructors of all types that messages are made of.
#![tactic(auto)]

mod by_hand;
mod contents;
mod conversions;
mod fates;
mod kept_items;
mod kept_places;
mod key_gets;
mod key_messages;
mod listing;
mod object_rereads;
mod registering;
mod tally;

use crate::contents::{Asked, Told, request_has, response_has};
use crate::fates::{Fate, envelope_fate_of_bytes, fate_of_bytes};
use crate::listing::print_items;
use crate::tally::Tally;
use std::io;

// Tries the message of a line, and prints its items, or what becomes of it if it doesn't come back. Whether it does, both ways.
fn try_line(rt: &HostRuntime, name: &str, digits: &str) -> io::Result<bool> {
    let Ok(bytes) = &hex::decode(rt.alloc(), digits) else {
        println!(rt; "{name}: these are no digits")?;
        return Ok(false);
    };
    let fate = fate_of_bytes(rt.alloc(), bytes);
    let kept = envelope_fate_of_bytes(rt.alloc(), bytes);
    if matches!(&fate, Fate::Back) && matches!(&kept, Fate::Back) {
        let is_known = request_has(rt.alloc(), digits, Asked::Known)
            || response_has(rt.alloc(), digits, Told::Known);
        print_items(rt, name, bytes, if is_known { "" } else { " kept" })?;
        return Ok(true);
    }
    println!(rt; "{name}: {fate}; with its payloads kept: {kept}")?;
    Ok(false)
}

fn main(rt: HostRuntime) -> io::Result<()> {
    let (mut back, mut not) = (0u64, 0u64);
    for line in rt.lines(rt.alloc()) {
        let line = line?;
        if let Some((name, digits)) = line.as_str().split_once(' ')
            && !name.starts_with('#')
        {
            if try_line(&rt, name, digits)? {
                back = back.saturating_add(1);
            } else {
                not = not.saturating_add(1);
            }
        }
    }
    println!(rt; "{back} messages came back, and {not} did not")?;
    let mut tally = Tally::new(&rt);
    key_gets::try_all(&mut tally)?;
    object_rereads::try_all(&mut tally)?;
    registering::try_all(&mut tally)?;
    kept_items::try_all(&mut tally)?;
    kept_places::try_all(&mut tally)?;
    conversions::try_all(&mut tally)?;
    key_messages::try_all(&mut tally)?;
    tally.end()
}
