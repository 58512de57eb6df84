// SPDX-License-Identifier: MIT OR Apache-2.0
use conn_fsm::Outputs;
use ipa_framing::{Frame, RSL_STREAM, SCCP_STREAM};
use octets::Octets;
use std::alloc::Global;
use std::process::Abort;
use std::test::Fail;

/// A frame: its link and, in hexadecimal digits, its body. Link 0 is the switch's; links 1 and 2
/// are those of the stations.
pub(crate) type Line<'a> = (u16, &'a str);

/// The stream of a link: SCCP for the switch, RSL for a station.
pub(crate) fn stream_of(link: u16) -> u8 {
    if link == 0 { SCCP_STREAM } else { RSL_STREAM }
}

/// The frame of a line.
pub(crate) fn frame(alloc: Global, (link, digits): Line) -> Result<Frame, Fail> {
    Ok(Frame {
        stream: stream_of(link),
        body: Octets::new(hex::decode(alloc, digits)?),
    })
}

/// Asserts that these frames, and no others, were put for connection 1.
pub(crate) fn are(
    rt: &(impl Abort + AllocGlobal),
    outputs: &Outputs,
    expected: &[Line],
) -> Result<(), Fail> {
    assert!(rt; outputs.len() == expected.len());
    for (out, (link, digits)) in outputs.as_slice().iter().zip(expected.iter()) {
        assert!(rt; out.to == *link && out.conn == 1 && out.frame.stream == stream_of(*link));
        let found = hex::encode(rt.alloc(), out.frame.body.as_slice())?;
        assert!(rt; found.as_str() == *digits);
    }
    Ok(())
}
