// SPDX-License-Identifier: MIT OR Apache-2.0
use bssmap_codec::{InterfaceFault, read_bssap, read_sccp};
use dtap_codec::{RrFault, RrMessage};
use rsl_codec::{Rsl, RslFault};
use std::alloc::Global;
use std::process::Abort;
use std::test::Fail;

#[derive(Clone, Copy)]
enum Codec {
    Rsl,
    Sccp,
    Bssap,
    Rr,
}

/// Texts in hexadecimal digits: those of an access, an assignment, a handover, a report, a clear
/// and a short message.
const TEXTS: &[(Codec, &str)] = &[
    (Codec::Rsl, "0c130188137f01021105"),
    (Codec::Rsl, "082101410300060400030100"),
    (Codec::Rsl, "08220141080000"),
    (
        Codec::Rsl,
        "0c1601902b172d063f004120147f010205002b2b2b2b2b2b2b2b2b2b2b",
    ),
    (Codec::Rsl, "0206014102000b0003052471"),
    (Codec::Rsl, "0301014102000b0006062e0a201400"),
    (Codec::Rsl, "0821014103020604000301000900"),
    (Codec::Rsl, "0301014102000b0009062b121e41401e0000"),
    (Codec::Rsl, "0302014102000b0003062c00"),
    (
        Codec::Rsl,
        "082801411b05190314140004000b0012061514140057024000000000000000000000",
    ),
    (Codec::Rsl, "0301014102000b0003060d01"),
    (Codec::Rsl, "0301014102000b0003060d00"),
    (Codec::Rsl, "0821010a0301060400010801"),
    (Codec::Rsl, "082e0141"),
    (Codec::Rsl, "08330141"),
    (Codec::Rsl, "020401410203"),
    (Codec::Rsl, "020601410203"),
    (Codec::Rsl, "020901410203"),
    (
        Codec::Sccp,
        "010000010202040242fe0f1200105705080000f11000010001170305247100",
    ),
    (Codec::Sccp, "020000018000010200"),
    (
        Codec::Sccp,
        "06800001000110000e1704010c05080000f11000010002",
    ),
    (Codec::Sccp, "040000018000010000"),
    (Codec::Sccp, "05800001000001"),
    (Codec::Sccp, "060000010001050103020901"),
    (Codec::Sccp, "06800001000106000422040120"),
    (Codec::Sccp, "06000001000106000420040109"),
    (Codec::Sccp, "06800001000103000121"),
    (Codec::Sccp, "068000010001080006251883040125"),
    (Codec::Sccp, "060000010001080006010b03010801"),
    (Codec::Sccp, "068000010001050003021500"),
    (Codec::Sccp, "06800001000106000403040160"),
    (Codec::Sccp, "06800001000106000403040121"),
    (Codec::Bssap, "00105705080000f110000100011703052471"),
    (Codec::Bssap, "000e1704010c05080000f11000010002"),
    (Codec::Bssap, "000422040120"),
    (Codec::Bssap, "000420040109"),
    (Codec::Bssap, "000121"),
    (Codec::Bssap, "0103020901"),
    (Codec::Bssap, "0006251883040125"),
    (Codec::Bssap, "0006010b03010801"),
    (Codec::Bssap, "000403040160"),
    (Codec::Rr, "2d063f004120147f010205002b2b2b2b2b2b2b2b2b2b2b"),
    (Codec::Rr, "062e0a201400"),
    (Codec::Rr, "062b121e41401e0000"),
    (Codec::Rr, "062c00"),
    (Codec::Rr, "061514140057024000000000000000000000"),
    (Codec::Rr, "060d01"),
];

/// Whether a reading runs out of memory. By the contract of the reading, any other answer is that
/// of the definitions.
fn wants_memory(alloc: Global, codec: Codec, octets: &[u8]) -> bool {
    match codec {
        Codec::Rsl => matches!(Rsl::read(alloc, octets), Err(RslFault::Memory)),
        Codec::Sccp => matches!(read_sccp(alloc, octets), Err(InterfaceFault::Memory)),
        Codec::Bssap => matches!(read_bssap(alloc, octets), Err(InterfaceFault::Memory)),
        Codec::Rr => matches!(RrMessage::read(alloc, octets), Err(RrFault::Memory)),
    }
}

/// Asserts that reading a text, or a prefix of it, doesn't run out of memory.
fn beginnings_are_read(rt: &(impl Abort + AllocGlobal), codec: Codec, text: &[u8]) {
    for size in 0..=text.len() {
        assert!(rt; !wants_memory(rt.alloc(), codec, &text[..size]));
    }
}

/// Asserts that reading a text with FF in place of one octet doesn't run out of memory.
fn false_octets_are_read(rt: &(impl Abort + AllocGlobal), codec: Codec, text: &mut [u8]) {
    for place in 0..text.len() {
        let octet = text[place];
        text[place] = 0xff;
        assert!(rt; !wants_memory(rt.alloc(), codec, text));
        text[place] = octet;
    }
}

#[test]
fn refuses_always_out_of_memory_at_false_octets(rt: HostRuntime) -> Result<(), Fail> {
    for (codec, digits) in TEXTS {
        let mut text = hex::decode(rt.alloc(), *digits)?;
        beginnings_are_read(&rt, *codec, text.as_slice());
        false_octets_are_read(&rt, *codec, text.as_mut_slice());
    }
    Ok(())
}
