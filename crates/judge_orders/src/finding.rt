// SPDX-License-Identifier: MIT OR Apache-2.0
ghost use Rattle.std.specs.Prelude.{◌≡◌};
ghost use Rattle.judge_orders.specs.Finding.{finding_of, fit_of, keeps_order, takes_second, worse};

use crate::Fit;
use run_judge::Connection;

/// What the controller did to a pair of connections, if the pair began in a given one of the two
/// orders.
#[derive(Clone, Copy)]
pub(crate) enum Finding {
    /// Nothing wrong.
    InOrder,
    /// Nothing wrong so far; a part isn't judged.
    NotJudged,
    /// Something wrong.
    Faulty,
}

fn keeps_order(connection: &Connection) -> bool
    ensures { result ≡ keeps_order connection.now }
{
    connection.up.zero.is_in_order()
        && connection.up.three.is_in_order()
        && connection.down.zero.is_in_order()
        && connection.down.three.is_in_order()
}

impl Finding {
    /// What the controller did to one connection.
    pub(crate) fn of(connection: &Connection) -> Finding
        ensures { result ≡ finding_of connection.now }
    {
        if !keeps_order(connection) {
            Finding::Faulty
        } else if connection.unjudged.is_some() {
            Finding::NotJudged
        } else {
            Finding::InOrder
        }
    }

    /// What the controller did to two connections: the worse of both findings.
    pub(crate) fn worse(self, other: Finding) -> Finding
        ensures { result ≡ worse self other }
    {
        match (self, other) {
            (Finding::Faulty, _) | (_, Finding::Faulty) => Finding::Faulty,
            (Finding::NotJudged, _) | (_, Finding::NotJudged) => Finding::NotJudged,
            (Finding::InOrder, Finding::InOrder) => Finding::InOrder,
        }
    }

    /// The orders that fit, from `self`, the finding of the first order, and `second`, the finding
    /// of the second order.
    pub(crate) fn fit_with(self, second: Finding) -> Fit
        ensures { result ≡ fit_of self second }
    {
        match (self, second) {
            (Finding::Faulty, Finding::Faulty) => Fit::Neither,
            (Finding::Faulty, _) | (_, Finding::Faulty) => Fit::One,
            _ => Fit::Both,
        }
    }

    /// Whether the report takes the second order, from `self`, the finding of the first order, and
    /// `second`, the finding of the second order.
    pub(crate) fn yields_to(self, second: Finding) -> bool
        ensures { result ≡ takes_second self second }
    {
        match (self, second) {
            (Finding::Faulty, Finding::Faulty) => false,
            (Finding::Faulty, _) => true,
            (Finding::InOrder, Finding::NotJudged) => true,
            _ => false,
        }
    }
}
