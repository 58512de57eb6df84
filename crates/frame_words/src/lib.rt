// SPDX-License-Identifier: MIT OR Apache-2.0
//! Words for the contents of a frame, besides its name: the name of the message that the frame
//! carries, and the fields. `bsc decode --long`, which prints these words, is here too.
#![tactic(auto)]

pub use carried::carried_name;
pub use digits::{write_digits, write_digits_line};
pub use fields::write_fields;
pub use frame_said::write_said;
pub use joined::write_joined;
pub use long_line::decode_long;
pub use message_name::write_message_name;
pub use number::write_number;

mod carried;
mod digits;
mod fields;
mod frame_said;
mod joined;
mod line;
mod long_line;
mod message_name;
mod names;
mod number;
mod said;
