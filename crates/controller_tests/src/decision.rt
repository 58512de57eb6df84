// SPDX-License-Identifier: MIT OR Apache-2.0
ghost use Rattle.std.specs.Prelude.{◌≤◌, length};

use dtap_codec::Report;
use ho_decision::{Averages, Cell, Decision, HoParameters, HoSettings};
use octets::Memory;
use std::alloc::Global;
use std::test::Fail;

const CELLS: [Cell; 2] = [
    Cell { arfcn: 20, bsic: 9 },
    Cell {
        arfcn: 30,
        bsic: 18,
    },
];

/// The settings of cell 1: interval 6, hysteresis 3, and windows 10, 1 and 10.
fn settings(alloc: Global, cells: &[Cell]) -> Result<HoSettings, Memory>
    requires some { 1 ≤ length cells.now }
    requires few { length cells.now ≤ 32 }
{
    let parameters = HoParameters {
        rxlev_window: 10,
        rxqual_window: 1,
        neighbour_window: 10,
        interval: 6,
        hysteresis: 3,
    };
    HoSettings::new(alloc, parameters, Vec::from_slice(alloc, cells)?, 1)
}

/// A report that begins with the octets `front`; all other octets are 0.
fn report(front: [u8; 6]) -> [u8; 16] {
    let [a, b, c, d, e, f] = front;
    [a, b, c, d, e, f, 0, 0, 0, 0, 0, 0, 0, 0, 0, 0]
}

/// The outcome of a report with this number: the decision and the average quality.
fn outcome(
    alloc: Global,
    settings: &HoSettings,
    octets: [u8; 16],
    number: u8,
) -> Result<(Decision, Option<u8>), Fail> {
    let mut averages = Averages::new(alloc, settings)?;
    averages.add(&Report::read(&octets)?, number);
    Ok((averages.decide(settings), averages.rxqual()))
}

#[test]
fn one_report_moves_or_remains(rt: HostRuntime) -> Result<(), Fail> {
    let settings = settings(rt.alloc(), &CELLS)?;
    // The serving level is 20, and a neighbour has level 23, level 22, or isn't there. Then come a
    // report with quality 5, and a report that isn't valid.
    let rows = [
        (
            [0x14, 0x14, 0x00, 0x57, 0x02, 0x40],
            5,
            Decision::Move(2),
            Some(0),
        ),
        (
            [0x14, 0x14, 0x00, 0x56, 0x02, 0x40],
            5,
            Decision::Stay,
            Some(0),
        ),
        (
            [0x14, 0x14, 0x01, 0xd7, 0x02, 0x40],
            5,
            Decision::Stay,
            Some(0),
        ),
        (
            [0x14, 0x14, 0x50, 0x57, 0x02, 0x40],
            4,
            Decision::Stay,
            Some(5),
        ),
        (
            [0x14, 0x54, 0x00, 0x57, 0x02, 0x40],
            5,
            Decision::Stay,
            None,
        ),
    ];
    for (front, number, decision, quality) in rows {
        let found = outcome(rt.alloc(), &settings, report(front), number)?;
        assert!(rt; found == (decision, quality));
    }
    Ok(())
}
