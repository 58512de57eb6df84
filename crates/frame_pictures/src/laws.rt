// SPDX-License-Identifier: MIT OR Apache-2.0
ghost use Rattle.std.specs.Prelude.{◌≡◌, ◌<◌, ℕ};
ghost use Rattle.ipa_framing.specs.Frame.{IsFrame, frame_text};
ghost use Rattle.ipa_framing.specs.declared.frame.Frame.{Frame};
ghost use Rattle.frame_pictures.specs.declared.link_frame.End.{End};
ghost use Rattle.frame_pictures.specs.Packet.{folded, framed, internet_header, sum_of_words};

/// Law: a packet carries exactly the octets that its frame has on a link, if a link can carry the
/// frame. The 16-bit words of an IPv4 header have the ones' complement sum ffff, which receivers
/// check (RFC 1071), if the packet's length is below 65,536.
pub fn packets_are_those_of_the_link()
    ensures octets { (frame : Frame) → IsFrame frame → framed frame ≡ frame_text frame }
    ensures checksum { (size : ℕ) (from to : End) → size < 65536 →
        folded (folded (sum_of_words (internet_header size from to))) ≡ 65535 }
{}
