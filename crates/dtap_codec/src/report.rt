// SPDX-License-Identifier: MIT OR Apache-2.0
ghost use Rattle.std.specs.Prelude.{◌≡◌, ◌+◌, ◌*◌, ◌^◌, ◌<◌, ◌≤◌};
ghost use Rattle.std.specs.Prelude.{length, IfOk, IfErr, Ok};
ghost use Rattle.dtap_codec.specs.declared.report.Report.{Report as ReportValue};
ghost use Rattle.std.specs.Int.{from_be_bytes, w128};
ghost use Rattle.dtap_codec.specs.Bits.{Begin};
ghost use Rattle.dtap_codec.specs.Report.{IsReport, Writes, entry_fields, entries_fields};
ghost use Rattle.dtap_codec.specs.Report.{neighbours_of};

use crate::bits::Bits;
use crate::rr_fault::RrFault;

/// The length of a report's value in octets.
pub const REPORT_LENGTH: usize = 16;

/// The number of neighbour entries in a report.
pub const REPORT_ENTRIES: usize = 6;

/// The entry of a report for one neighbour cell.
#[derive(Clone, Copy)]
pub struct Neighbour {
    /// RXLEV-NCELL: the level received from the cell, 0 to 63, in steps of 1 dB from -110 dBm.
    pub rxlev: u8,
    /// BCCH-FREQ-NCELL: the index, 0 to 31, of the cell's ARFCN in the rising list of the
    /// neighbours' ARFCNs.
    pub bcch_freq: u8,
    /// BSIC-NCELL: the base station identity code, NCC times 8 plus BCC; 0 to 63.
    pub bsic: u8,
}

/// The value of a MEASUREMENT REPORT: the measurement results (TS 44.018 clause 10.5.2.20).
#[derive(Clone, Copy)]
pub struct Report {
    /// BA-USED, 0 or 1: which list of neighbour frequencies the mobile measured.
    pub ba_used: u8,
    /// DTX-USED: whether the mobile used discontinuous transmission.
    pub dtx_used: bool,
    /// RXLEV-FULL: the serving cell's level over the whole channel, 0 to 63, in steps of 1 dB from
    /// -110 dBm.
    pub rxlev_full: u8,
    /// MEAS-VALID: whether the results are valid. In the octets, 0 stands for valid results.
    pub valid: bool,
    /// RXLEV-SUB: the serving cell's level over the part of the channel that is always sent, 0 to
    /// 63.
    pub rxlev_sub: u8,
    /// RXQUAL-FULL: the serving cell's quality over the whole channel, 0 (best) to 7.
    pub rxqual_full: u8,
    /// RXQUAL-SUB: the serving cell's quality over the part of the channel that is always sent, 0
    /// (best) to 7.
    pub rxqual_sub: u8,
    /// NO-NCELL: how many entries count, 0 to 6, beginning with the first. 7 means that there are
    /// no neighbour results.
    pub no_ncell: u8,
    /// The six neighbour entries, including those that don't count.
    pub entries: [Neighbour; REPORT_ENTRIES],
}

impl Report {
    /// Reads the first 16 octets as a report and ignores the octets after these. `Err(Short)` if
    /// there are fewer than 16 octets, and in no other case. A report whose results are marked as
    /// invalid is read too.
    ///
    /// The fields with their widths in bits, high bit first and without gaps:
    ///
    /// ```text
    /// BA-USED 1, DTX-USED 1, RXLEV-FULL 6,
    /// ignored 1, MEAS-VALID 1 (0 is valid), RXLEV-SUB 6,
    /// ignored 1, RXQUAL-FULL 3, RXQUAL-SUB 3, NO-NCELL 3,
    /// six times RXLEV 6, BCCH-FREQ 5, BSIC 6
    /// ```
    pub fn read(octets: &[u8]) -> Result<Report, RrFault>
        // The first 16 octets are the text of the report that is read.
        ensures found { IfOk result (λ report. IsReport octets.now report) }
        // If the first 16 octets are the text of a report, that report is read. No other report has
        // these octets as its text.
        ensures only { (report : ReportValue) → IsReport octets.now report → result ≡ Ok report }
        ensures refused { IfErr result
            (λ fault. (fault ≡ RrFault.Short) × (length octets.now < REPORT_LENGTH)) }
    {
        let value = octets.first_chunk::<REPORT_LENGTH>().ok_or(RrFault::Short)?;
        Ok(report_of(*value))
    }

    /// The neighbour entries that count: the first `no_ncell` entries, or no entry if `no_ncell`
    /// exceeds 6.
    pub fn neighbours(&self) -> &[Neighbour]
        ensures { result.now ≡ neighbours_of self.now }
    {
        let count = usize::from(self.no_ncell);
        if count <= REPORT_ENTRIES {
            &self.entries[..count]
        } else {
            &[]
        }
    }
}

// Reads the 16 octets of a report.
fn report_of(value: [u8; REPORT_LENGTH]) -> Report
    ensures { Writes (from_be_bytes w128 value) result }
{
    take_report(Bits::of_octets(value))
}

// Reads the 128 bits of a report, in the order of the standard.
fn take_report(mut bits: Bits) -> Report
    requires { bits.left ≡ 128 }
    ensures { Writes bits.number result }
{
    let ba_used = bits.take(1);
    let dtx_used = bits.take(1) == 1;
    let rxlev_full = bits.take(6);
    let _second = bits.take(1);
    let valid = bits.take(1) == 0;
    let rxlev_sub = bits.take(6);
    let _third = bits.take(1);
    let rxqual_full = bits.take(3);
    let rxqual_sub = bits.take(3);
    let no_ncell = bits.take(3);
    let entries = take_entries(bits);
    Report {
        ba_used,
        dtx_used,
        rxlev_full,
        valid,
        rxlev_sub,
        rxqual_full,
        rxqual_sub,
        no_ncell,
        entries,
    }
}

// Reads the six neighbour entries, the last 102 bits.
fn take_entries(mut bits: Bits) -> [Neighbour; REPORT_ENTRIES]
    requires { bits.left ≡ 102 }
    ensures { Begin (entries_fields result) bits.left bits.number 0 0 }
{
    [
        take_neighbour(&mut bits),
        take_neighbour(&mut bits),
        take_neighbour(&mut bits),
        take_neighbour(&mut bits),
        take_neighbour(&mut bits),
        take_neighbour(&mut bits),
    ]
}

// Reads the 17 bits of an entry.
fn take_neighbour(bits: &mut Bits) -> Neighbour
    requires { 17 ≤ bits.old.left }
    ensures { Begin (entry_fields result) bits.old.left bits.old.number
        bits.new.left bits.new.number }
{
    let rxlev = bits.take(6);
    let bcch_freq = bits.take(5);
    let bsic = bits.take(6);
    Neighbour {
        rxlev,
        bcch_freq,
        bsic,
    }
}
