// SPDX-License-Identifier: MIT OR Apache-2.0
use dtap_codec::Modulus;
use nsd_filter::Reception;
use octets::{Memory, Octets};
use std::alloc::Global;

fn take_all(alloc: Global, reception: &mut Reception, messages: &[&[u8]]) -> Result<(), Memory> {
    for message in messages {
        reception.take(Octets::copy(alloc, message)?)?;
    }
    Ok(())
}

#[test]
fn messages_of_the_flow_and_others_are_taken(rt: HostRuntime) {
    let messages: [&[u8]; 4] = [
        &[0x06, 0x27, 0x71],
        &[0x05, 0x24, 0x71],
        &[0x03, 0x45],
        &[0x03, 0x45],
    ];
    let mut reception = Reception::new(rt.alloc(), Modulus::Four);
    let took = take_all(rt.alloc(), &mut reception, &messages);
    assert!(rt; took.is_ok());
    assert!(rt; reception.taken().len() == 4);
    assert!(rt; reception.accepted().len() == 2);
    assert!(rt; reception.unnumbered().len() == 1);
}
