// SPDX-License-Identifier: MIT OR Apache-2.0
ghost use Rattle.std.specs.Prelude.{◌≡◌};
ghost use Rattle.judge_orders.specs.Judged.{alone};

use run_judge::Connection;

/// The orders that fit. Two connections that began with the same initial message can have begun in
/// two orders; an order fits if the controller did nothing wrong by this order.
#[derive(Clone, Copy)]
pub enum Fit {
    /// Just one order fits.
    One,
    /// Both orders fit.
    Both,
    /// Neither order fits.
    Neither,
}

/// A connection with its final verdict.
#[derive(Drop)]
pub struct Judged {
    pub connection: Connection,
    /// The orders that fit; `None` if no orders were tried for the connection.
    pub fit: Option<Fit>,
}

impl Judged {
    /// A connection for which no orders were tried.
    pub fn alone(connection: Connection) -> Judged
        ensures { result ≡ alone connection }
    {
        Judged {
            connection,
            fit: None,
        }
    }
}
