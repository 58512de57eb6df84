// SPDX-License-Identifier: MIT OR Apache-2.0
use dtap_codec::Modulus;

/// The form of the output.
#[derive(Clone, Copy)]
pub enum Form {
    /// Lines for people.
    Text,
    /// A test point for each connection, in the Test Anything Protocol, version 14.
    Tap,
}

/// Whether a connection that isn't judged to the end counts as a fault.
#[derive(Clone, Copy)]
pub enum Strictness {
    /// Such a connection doesn't count as a fault.
    Lenient,
    /// Such a connection counts as a fault.
    Strict,
}

/// How connections are printed.
#[derive(Clone, Copy)]
pub struct Style {
    /// The number of values of N(SD).
    pub modulus: Modulus,
    pub form: Form,
    pub strictness: Strictness,
}
