//! A client of KMIP that makes, uses and destroys a key, over standard input and output; what it found goes to standard error.
#![tactic(auto)]

use kmip_attribute_set::building::of_key;
use kmip_client::client::Client;
use kmip_client::connection::Connection;
use kmip_client::exchange::Exchange;
use kmip_client::failure::Failure;
use kmip_client::keys::raw_bytes;
use kmip_client::keys::usage::{DECRYPT, ENCRYPT};
use kmip_messages::header::ProtocolVersion;
use kmip_messages::request_payload::query_function::QUERY_OPERATIONS;
use kmip_messages::values::cryptographic_algorithm::AES;
use kmip_messages::values::revocation_reason_code::CESSATION_OF_OPERATION;
use kmip_messages::values::state;
use kmip_ttlv_memory::Wiping;
use std::alloc::Allocator;
use std::process::ExitCode;

const BEST: ProtocolVersion = ProtocolVersion { major: 2, minor: 0 };

const OTHER: ProtocolVersion = ProtocolVersion { major: 1, minor: 4 };

const FIRST: ProtocolVersion = ProtocolVersion { major: 1, minor: 1 };

// Makes a key, has it in use, gets it, and gives it up.
fn run<C: Exchange<A>, A: Allocator + Copy>(
    rt: HostRuntime,
    client: &mut Client<C, A>,
) -> Result<(), Failure<A>> {
    let ProtocolVersion { major, minor } = client.negotiate(&[BEST, OTHER, FIRST])?;
    let operations = client.query(&[QUERY_OPERATIONS])?.inner.operations.len();
    let attributes = of_key(client.alloc, AES, 256, ENCRYPT | DECRYPT, "disk")?;
    let made = client.create(attributes)?;
    let id = made.unique_identifier.as_str();
    client.activate(id)?;
    let got = client.get(id)?;
    let key = got.inner.symmetric_key.as_ref();
    let bytes = key.and_then(|key| raw_bytes(&key.inner.key_block));
    let length = bytes.map_or(0, |bytes| bytes.len());
    let is_active = client.get_attributes(id, &["State"])?.state() == Some(state::ACTIVE);
    let found = client.locate("disk")?.unique_identifiers.len();
    client.revoke(id, CESSATION_OF_OPERATION)?;
    client.destroy(id)?;
    let _ = eprintln!(rt;
        "KMIP {major}.{minor}, {operations} operations; a key of {length} bytes, active: {is_active}; {found} of its name"
    );
    Ok(())
}

fn main(rt: HostRuntime) -> ExitCode {
    let memory = Wiping::new(rt.alloc()); // it overwrites keys when they are given back
    let connection = Connection::new(&memory, 65_536, rt.stdin(), rt.stdout());
    let _ = match run(rt, &mut Client::new(&memory, FIRST, connection)) {
        Ok(()) => return ExitCode::SUCCESS,
        Err(Failure::Refused(why)) => eprintln!(rt; "refused, with the reason {:?}", why.reason),
        Err(_other) => eprintln!(rt; "the server does not answer"),
    };
    ExitCode::FAILURE
}
