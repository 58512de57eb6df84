// SPDX-License-Identifier: MIT OR Apache-2.0
ghost use Rattle.std.specs.Prelude.{IfOk};
ghost use Rattle.conn_rules.specs.Validity.{IsCarried};

use crate::frames::{Line, are, frame};
use conn_fsm::{Channel, Conn, Input, Outputs, State};
use controller_model::Word;
use controller_parts::read_word;
use dtap_codec::{Arfcn, CellDescription, ColourCode, Sapi};
use octets::Octets;
use rsl_codec::{AccessDelay, ChanNo, HandoverReference, RequestReference};
use std::alloc::Global;
use std::process::Abort;
use std::test::Fail;

/// An event at a connection.
#[derive(Clone, Copy)]
enum Event<'a> {
    /// A frame arrives; given are its link and, in hexadecimal digits, its body.
    Comes(u16, &'a str),
    /// A frame arrives while a channel of cell 1 is offered; the last octet is the channel's
    /// number.
    Offers(u16, &'a str, u8),
    /// A report leads to a decision for cell 2, which offers the channel with this number.
    Moves(u8),
}

use Event::{Comes, Moves, Offers};

/// An event at a connection, and the frames that the connection then puts.
type Exchange<'a> = (Event<'a>, &'a [Line<'a>]);

/// On 41 of cell 1: IMMEDIATE ASSIGN COMMAND, CR, and CC.
const OPENING: &[Exchange] = &[
    (
        Comes(1, "08220141080000"),
        &[(
            1,
            "0c1601902b172d063f004120147f010205002b2b2b2b2b2b2b2b2b2b2b",
        )],
    ),
    (
        Comes(1, "0206014102000b0003052471"),
        &[(
            0,
            "010000010202040242fe0f1200105705080000f11000010001170305247100",
        )],
    ),
    (Comes(0, "020000018000010200"), &[]),
];

/// A short message, an assignment to 0A of cell 1, and a clear.
const ASSIGNED: &[Exchange] = &[
    (Comes(0, "060000010001050103020901"), &[(1, "020401410203")]),
    (
        Offers(0, "060000010001080006010b03010801", 0x0a),
        &[(1, "0821010a0301060400010801")],
    ),
    (
        Comes(1, "0822010a080000"),
        &[(1, "0301014102000b0006062e0a201400")],
    ),
    (Comes(0, "060000010001050100028302"), &[]),
    (
        Comes(1, "0302010a02000b0003062900"),
        &[
            (0, "068000010001050003021500"),
            (1, "082e0141"),
            (1, "0301010a02000b00028302"),
            (1, "0204010a0243"),
        ],
    ),
    (Comes(1, "0205010a0243"), &[(1, "0301010a02430b00020901")]),
    (Comes(1, "08330141"), &[]),
    (
        Comes(0, "06000001000106000420040109"),
        &[
            (1, "0301010a02000b0003060d00"),
            (1, "082e010a"),
            (0, "06800001000103000121"),
        ],
    ),
    (Comes(0, "040000018000010000"), &[(0, "05800001000001")]),
];

/// A handover to 41 of cell 2, up to HANDOVER COMMAND; then a short message waits.
const COMMANDED: &[Exchange] = &[
    (Moves(0x41), &[(2, "0821014103020604000301000900")]),
    (
        Comes(2, "08220141080000"),
        &[(1, "0301014102000b0009062b121e41401e0000")],
    ),
    (Comes(0, "060000010001050103020901"), &[]),
];

/// The handover completes, and then a message of the mobile waits.
const HANDED_OVER: &[Exchange] = &[
    (
        Comes(2, "0302014102000b0003062c00"),
        &[
            (0, "06800001000110000e1704010c05080000f11000010002"),
            (1, "082e0141"),
            (2, "020401410203"),
        ],
    ),
    (Comes(2, "0302014102000b0002038f"), &[]),
];

/// The frames that are put when the link of station 1 breaks while the channel of station 1 drains.
const BROKEN: &[Line] = &[
    (0, "06800001000106000422040120"),
    (2, "0301014102000b0003060d01"),
    (2, "082e0141"),
];

/// The ARFCN and the BSIC of cell 1 if `station` is 1, else those of cell 2.
fn description(station: u16) -> CellDescription {
    if station == 1 {
        CellDescription {
            arfcn: Arfcn::new(20),
            ncc: ColourCode::new(1),
            bcc: ColourCode::new(1),
        }
    } else {
        CellDescription {
            arfcn: Arfcn::new(30),
            ncc: ColourCode::new(2),
            bcc: ColourCode::new(2),
        }
    }
}

/// The channel of cell 1 or 2 with the number `octet`; `None` if `octet` isn't a channel number.
fn channel(station: u16, octet: u8) -> Option<Channel> {
    let cell = if station == 1 { 1 } else { 2 };
    let number = ChanNo::read(octet).ok()?;
    Some(Channel {
        station,
        number,
        cell: [0x00, 0x00, 0xf1, 0x10, 0x00, 0x01, 0x00, cell],
        description: description(station),
        reference: HandoverReference(0),
    })
}

/// The input to the connection that a frame brings.
fn input_read(alloc: Global, link: u16, digits: &str) -> Result<Input, Fail>
    ensures { IfOk result IsCarried }
{
    let frame = frame(alloc, (link, digits))?;
    match read_word(alloc, link, &frame)? {
        Word::OnChannel(_, input) | Word::OnConnection(_, input) => Ok(input),
        _ => Err("nothing for the connection".into()),
    }
}

fn input_of(alloc: Global, event: Event) -> Result<Input, Fail>
    ensures { IfOk result IsCarried }
{
    match event {
        Comes(link, digits) | Offers(link, digits, _) => input_read(alloc, link, digits),
        Moves(_) => Ok(Input::Move),
    }
}

fn offer_of(event: Event) -> Option<Channel> {
    match event {
        Comes(..) => None,
        Offers(_, _, octet) => channel(1, octet),
        Moves(octet) => channel(2, octet),
    }
}

/// Asserts that a row of the connection's table fits each event in turn, and which frames the
/// connection puts.
fn plays(
    rt: &(impl Abort + AllocGlobal),
    conn: &mut Conn,
    exchanges: &[Exchange],
) -> Result<(), Fail> {
    for (event, expected) in exchanges {
        let input = input_of(rt.alloc(), *event)?;
        let mut outputs = Outputs::new(rt.alloc());
        assert!(rt; conn.step(input, offer_of(*event), &mut outputs)?);
        are(rt, &outputs, expected)?;
    }
    Ok(())
}

/// A connection whose channel, 41 of cell 1, is to be activated.
fn begun(alloc: Global) -> Result<Conn, Fail> {
    let channel = channel(1, 0x41).ok_or("no channel")?;
    let request = RequestReference {
        access: 0x7f,
        frame: 0x0102,
    };
    Ok(Conn::new(alloc, 1, channel, request, AccessDelay(5))?)
}

/// Asserts that this message, and no other, is held.
fn is_held(rt: &impl Abort, held: &[Octets], message: &[u8]) {
    assert!(rt; held.len() == 1 && held[0].as_slice() == message);
}

/// Asserts which frames are put during an assignment.
fn is_assigned(rt: &(impl Abort + AllocGlobal), conn: &mut Conn) -> Result<(), Fail> {
    plays(rt, conn, OPENING)?;
    plays(rt, conn, ASSIGNED)
}

/// Asserts which frames are put and which messages are held during a handover, and which frames are
/// put when the link of the old cell breaks.
fn is_handed_over(rt: &(impl Abort + AllocGlobal), conn: &mut Conn) -> Result<(), Fail> {
    plays(rt, conn, OPENING)?;
    plays(rt, conn, COMMANDED)?;
    is_held(rt, conn.held(Sapi::Three)?.as_slice(), &[0x09, 0x01]);
    plays(rt, conn, HANDED_OVER)?;
    is_held(rt, conn.held_up(Sapi::Zero)?.as_slice(), &[0x03, 0x8f]);
    let plan = conn.plan(Input::StationDown { station: 1 })?;
    are(rt, &conn.commit(plan), BROKEN)
}

#[test]
fn a_life_with_an_assignment_and_short_messages(rt: HostRuntime) -> Result<(), Fail> {
    let mut conn = begun(rt.alloc())?;
    is_assigned(&rt, &mut conn)
}

#[test]
fn a_handover_holds_what_overtakes_and_a_break_is_planned(rt: HostRuntime) -> Result<(), Fail> {
    let mut conn = begun(rt.alloc())?;
    let handed = is_handed_over(&rt, &mut conn);
    assert!(rt; matches!(conn.state(), State::Closed(_)));
    handed
}
