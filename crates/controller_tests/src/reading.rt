// SPDX-License-Identifier: MIT OR Apache-2.0
use crate::frames::{Line, frame};
use conn_fsm::{Input, Out, Outputs};
use controller_model::Word;
use controller_parts::{forwarded, handed, read_word};
use dtap_codec::Sapi;
use ipa_framing::{CCM_STREAM, Frame, MAX_BODY};
use octets::Octets;
use std::alloc::Global;
use std::test::Fail;

/// The word that the call worker reads from a frame of a link.
fn word(alloc: Global, line: Line) -> Result<Word, Fail> {
    let frame = frame(alloc, line)?;
    Ok(read_word(alloc, line.0, &frame)?)
}

/// The message that a word carries from the mobile or to it. Before it stand the station and the
/// number of the channel, or 0 and the number of the connection. `None` if the word carries no
/// message.
fn message_of(word: &Word) -> Option<(u16, u32, &[u8])> {
    match word {
        Word::OnChannel(at, Input::Dtap { message, .. }) => {
            Some((at.station, u32::from(at.number.octet()), message.as_slice()))
        }
        Word::OnConnection(number, Input::Downlink { message, .. }) => {
            Some((0, *number, message.as_slice()))
        }
        _ => None,
    }
}

/// The station, the number, the level and the quality of a report; `None` if the word is no report.
fn report_of(word: &Word) -> Option<(u16, u8, u8, u8)> {
    match word {
        Word::Reports(at, number, report) => {
            Some((at.station, *number, report.rxlev_full, report.rxqual_sub))
        }
        _ => None,
    }
}

#[test]
fn frames_of_every_link_are_read(rt: HostRuntime) -> Result<(), Fail> {
    let messages: [(Line, u16, u32, [u8; 2]); 2] = [
        ((1, "0302014102000b00020345"), 1, 0x41, [0x03, 0x45]),
        ((0, "060000010001050103020902"), 0, 1, [0x09, 0x02]),
    ];
    for (line, station, number, message) in messages {
        let word = word(rt.alloc(), line)?;
        assert!(rt;
            message_of(&word).is_some_and(|found| {
                found.0 == station && found.1 == number && found.2 == message.as_slice()
            })
        );
    }
    // The report has the number 5, the level 20 and the quality 0.
    let report = "082801411b050b0012061514140057024000000000000000000000";
    let word = word(rt.alloc(), (1, report))?;
    assert!(rt; report_of(&word) == Some((1, 5, 20, 0)));
    Ok(())
}

#[test]
fn a_ping_is_read(rt: HostRuntime) -> Result<(), Fail> {
    let frame = Frame {
        stream: CCM_STREAM,
        body: Octets::copy(rt.alloc(), &[0x00])?,
    };
    let word = read_word(rt.alloc(), 2, &frame)?;
    assert!(rt; matches!(word, Word::Ping));
    Ok(())
}

/// Outputs with these frames, all of connection 1.
fn put(alloc: Global, lines: &[Line]) -> Result<Outputs, Fail> {
    let mut outputs = Outputs::new(alloc);
    for line in lines {
        let frame = frame(alloc, *line)?;
        if frame.body.len() > MAX_BODY {
            return Err("no frame".into());
        }
        outputs.push(Out {
            to: line.0,
            conn: 1,
            frame,
        })?;
    }
    Ok(outputs)
}

/// DTAP of SAPI 3 to the switch, DTAP of SAPI 0 to the mobile, and RLC, which carries no message.
const PASSED: &[Line] = &[
    (0, "068000010001050183020901"),
    (1, "0201014102000b00028302"),
    (0, "05800001000001"),
];

#[test]
fn what_passed_a_connection_is_seen(rt: HostRuntime) -> Result<(), Fail> {
    let outputs = put(rt.alloc(), PASSED)?;
    let passed = forwarded(rt.alloc(), &outputs, 1)?;
    assert!(rt; passed.len() == 1 && passed[0].message.as_slice() == [0x09, 0x01].as_slice());
    assert!(rt; matches!(passed[0].sapi, Sapi::Three));
    let given = handed(rt.alloc(), &outputs, 1, Sapi::Zero)?;
    assert!(rt; given.len() == 1 && given[0].as_slice() == [0x83, 0x02].as_slice());
    Ok(())
}
