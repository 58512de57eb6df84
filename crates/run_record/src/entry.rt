// SPDX-License-Identifier: MIT OR Apache-2.0
use ipa_framing::Frame;
use octets::Octets;
use ruled_relay::What;

/// The greatest length of a piece of the head, in octets.
pub const MAX_HEAD: usize = 32768;

/// The content of a packet of a record. A step of the controller is a `Took` or a `Passed`,
/// followed by the `Put`s of the step. Link 0 is that of the switch; link i is that of the station
/// of cell i.
#[derive(Drop)]
pub enum Entry {
    /// A piece of the head, which comes before the first step: version, settings and the like.
    Head(Octets),
    /// A step took a frame of a link, or the end of the link (`What::Down`).
    Took(u8, What),
    /// A step was told that this many milliseconds had passed.
    Passed(u32),
    /// The preceding step put a frame on a link.
    Put(u8, Frame),
    /// The record ends here, although the run went on.
    Lost,
}

/// A time of the wall clock.
#[derive(Clone, Copy)]
pub struct Stamp {
    pub seconds: u32,
    pub microseconds: u32,
}

/// An entry and the time at which the entry was written.
#[derive(Drop)]
pub struct Stamped {
    pub stamp: Stamp,
    pub entry: Entry,
}
