// SPDX-License-Identifier: MIT OR Apache-2.0
ghost use Rattle.std.specs.Prelude.{◌≡◌};
ghost use Rattle.rerun.specs.Difference.{first_difference, is_same};

use conn_messages::Out;
use record_steps::PutFrame;

/// The frames of a step that its record contains.
#[derive(Clone, Copy)]
pub enum Extent {
    /// All frames.
    All,
    /// The first frames, as the record may end within the step.
    First,
}

/// The place, from 0, of the first difference between the frames that a step put (`outs`) and those
/// of its record (`puts`): in link, stream or octets, or because one side lacks the frame. `None`
/// if there is no difference. With `Extent::First`, it is no difference if the record lacks the
/// last frames.
pub fn first_difference(extent: Extent, outs: &[Out], puts: &[PutFrame]) -> Option<usize>
    ensures { result ≡ first_difference extent outs.now puts.now }
{
    let mut at = 0;
    while at < outs.len() && at < puts.len() && is_same(&outs[at], &puts[at]) {
        at += 1;
    }
    if at < puts.len() {
        return Some(at);
    }
    match extent {
        Extent::All if at < outs.len() => Some(at),
        _ => None,
    }
}

/// Whether a frame that was put and a frame of a record have the same link, stream and octets.
fn is_same(out: &Out, put: &PutFrame) -> bool
    ensures { result ≡ is_same out.now put.now }
{
    out.to == u16::from(put.link)
        && out.frame.stream == put.frame.stream
        && out.frame.body.as_slice() == put.frame.body.as_slice()
}
