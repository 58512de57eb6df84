// SPDX-License-Identifier: MIT OR Apache-2.0
use controller::{Controller, Item, Outputs, Settings, Step, What};
use ipa_framing::{Frame, RSL_STREAM, SCCP_STREAM};
use octets::Octets;
use std::alloc::Global;
use std::process::Abort;
use std::test::Fail;

/// A frame: its link and, in hexadecimal digits, its body. Link 0 is the switch's; links 1 and 2
/// are those of the stations.
pub(crate) type Line<'a> = (u16, &'a str);

/// What happens to the controller.
#[derive(Clone, Copy)]
pub(crate) enum Event<'a> {
    /// A frame arrives; given are its link and, in hexadecimal digits, its body.
    Comes(u16, &'a str),
    /// A number of milliseconds pass.
    Passes(u32),
    /// The link with this number breaks.
    Breaks(u16),
}

/// An event at the controller, and the frames that the controller then puts.
pub(crate) type Exchange<'a> = (Event<'a>, &'a [Line<'a>]);

const TWO_CELLS: &str =
    "[network]\nmcc = \"001\"\nmnc = \"01\"\n[switch]\naddress = \"127.0.0.1:5000\"\n\
[[cell]]\nlisten = \"127.0.0.1:3003\"\nlac = 1\nci = 1\narfcn = 20\nbsic = 9\n\
channels = [0x41, 0x49, 0x0a]\n\
[[cell]]\nlisten = \"127.0.0.1:3004\"\nlac = 1\nci = 2\narfcn = 30\nbsic = 18\n\
channels = [0x41, 0x0a]\n";

/// Settings of two cells.
pub(crate) fn two_cells(alloc: Global) -> Result<Settings, Fail> {
    Ok(Settings::read(alloc, TWO_CELLS)?)
}

/// A controller with settings of two cells.
pub(crate) fn opened(alloc: Global) -> Result<Controller, Fail> {
    Ok(Controller::new(alloc, two_cells(alloc)?)?)
}

/// The stream of a link: SCCP for the switch, RSL for a station.
fn stream_of(link: u16) -> u8 {
    if link == 0 { SCCP_STREAM } else { RSL_STREAM }
}

/// The step of a controller at this event.
pub(crate) fn step_of(alloc: Global, event: Event) -> Result<Step, Fail> {
    let (source, what) = match event {
        Event::Passes(ms) => return Ok(Step::Tick(ms)),
        Event::Breaks(source) => (source, What::Down),
        Event::Comes(source, digits) => {
            let body = Octets::new(hex::decode(alloc, digits)?);
            let stream = stream_of(source);
            (source, What::Frame(Frame { stream, body }))
        }
    };
    Ok(Step::Take(Item { source, what }))
}

/// Asserts that the outputs are the frames `expected`.
pub(crate) fn are(
    rt: &(impl Abort + AllocGlobal),
    outputs: &Outputs,
    expected: &[Line],
) -> Result<(), Fail> {
    assert!(rt; outputs.len() == expected.len());
    for (out, (link, digits)) in outputs.as_slice().iter().zip(expected.iter()) {
        assert!(rt; out.to == *link && out.frame.stream == stream_of(*link));
        let found = hex::encode(rt.alloc(), out.frame.body.as_slice())?;
        assert!(rt; found.as_str() == *digits);
    }
    Ok(())
}

/// Asserts what the controller puts at each event in turn.
fn plays(
    rt: &(impl Abort + AllocGlobal),
    controller: &mut Controller,
    exchanges: &[Exchange],
) -> Result<(), Fail> {
    for (event, expected) in exchanges {
        let mut outputs = Outputs::new(rt.alloc());
        let step = step_of(rt.alloc(), *event)?;
        controller.run_one(step, &mut outputs)?;
        are(rt, &outputs, expected)?;
    }
    Ok(())
}

/// Asserts what the controller puts at each event of `parts`, which are parts of a life.
pub(crate) fn lives(
    rt: &(impl Abort + AllocGlobal),
    controller: &mut Controller,
    parts: &[&[Exchange]],
) -> Result<(), Fail> {
    for part in parts {
        plays(rt, controller, part)?;
    }
    Ok(())
}

/// Asserts what a new controller puts at each event of `parts`, and that it ignored something
/// `ignored` times.
pub(crate) fn lives_ignoring(
    rt: &(impl Abort + AllocGlobal),
    parts: &[&[Exchange]],
    ignored: u64,
) -> Result<(), Fail> {
    let mut controller = opened(rt.alloc())?;
    let lived = lives(rt, &mut controller, parts);
    assert!(rt; controller.ignored() == ignored && controller.links() == 3);
    lived
}

/// All frames that are expected in `parts`, in order.
pub(crate) fn lines_of<'a>(
    alloc: Global,
    parts: &[&[Exchange<'a>]],
) -> Result<Vec<Line<'a>>, Fail> {
    let mut lines = Vec::new(alloc);
    for part in parts {
        add_lines(part, &mut lines)?;
    }
    Ok(lines)
}

fn add_lines<'a>(part: &[Exchange<'a>], lines: &mut Vec<Line<'a>>) -> Result<(), Fail> {
    for (_, expected) in part {
        lines.extend_from_slice(expected)?;
    }
    Ok(())
}
