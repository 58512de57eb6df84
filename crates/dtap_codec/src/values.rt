// SPDX-License-Identifier: MIT OR Apache-2.0
ghost use Rattle.std.specs.Prelude.{◌≡◌, ◌<◌};

use std::marker::Model;

/// An absolute radio frequency channel number (ARFCN) of 10 bits. In contracts the value is the
/// number.
#[derive(Clone, Copy)]
pub struct Arfcn {
    number: u16,
}

impl Model for Arfcn {
    ghost use Rattle.std.specs.Prelude.{ℕ, ◌<◌};

    ghost Value = { ℕ };

    ghost view = { λ arfcn. arfcn.number };

    ghost inverse = { λ number. record { number = number } };

    ghost invariant = { λ arfcn. arfcn.number < 1024 };
}

impl Arfcn {
    /// The ARFCN with this number. Assumes: `number` is below 1024.
    pub fn new(number: u16) -> Arfcn
        requires { number < 1024 }
        ensures { result ≡ number }
    {
        Arfcn { number }
    }

    /// The number, below 1024.
    pub fn number(self) -> u16
        ensures number { result ≡ self }
        ensures ten_bits { result < 1024 }
    {
        self.number
    }
}

/// A code of three bits: a training sequence code (TSC), a network colour code (NCC) or a base
/// station colour code (BCC). In contracts the value is the number of the code.
#[derive(Clone, Copy)]
pub struct ColourCode {
    code: u8,
}

impl Model for ColourCode {
    ghost use Rattle.std.specs.Prelude.{ℕ, ◌<◌};

    ghost Value = { ℕ };

    ghost view = { λ colour. colour.code };

    ghost inverse = { λ code. record { code = code } };

    ghost invariant = { λ colour. colour.code < 8 };
}

impl ColourCode {
    /// The code with the number `code`. Assumes: `code` is below 8.
    pub fn new(code: u8) -> ColourCode
        requires { code < 8 }
        ensures { result ≡ code }
    {
        ColourCode { code }
    }

    /// The number, below 8.
    pub fn number(self) -> u8
        ensures number { result ≡ self }
        ensures three_bits { result < 8 }
    {
        self.code
    }
}

/// A timing advance of 6 bits, in steps of 48/13 microseconds. In contracts the value is the number
/// of steps.
#[derive(Clone, Copy)]
pub struct TimingAdvance {
    steps: u8,
}

impl Model for TimingAdvance {
    ghost use Rattle.std.specs.Prelude.{ℕ, ◌<◌};

    ghost Value = { ℕ };

    ghost view = { λ advance. advance.steps };

    ghost inverse = { λ steps. record { steps = steps } };

    ghost invariant = { λ advance. advance.steps < 64 };
}

impl TimingAdvance {
    /// The advance of `steps` steps. Assumes: `steps` is below 64.
    pub fn new(steps: u8) -> TimingAdvance
        requires { steps < 64 }
        ensures { result ≡ steps }
    {
        TimingAdvance { steps }
    }

    /// The number of steps, below 64.
    pub fn steps(self) -> u8
        ensures steps { result ≡ self }
        ensures six_bits { result < 64 }
    {
        self.steps
    }
}
