// SPDX-License-Identifier: MIT OR Apache-2.0
ghost use Rattle.std.specs.Prelude.{◌≡◌, length, Some, true, OnOk, IfOk};
ghost use Rattle.dtap_codec.specs.declared.rr.RrMessage.TheVariants.{MeasurementReport};
ghost use Rattle.dtap_codec.specs.RrText.{rr_text};
ghost use Rattle.dtap_codec.specs.declared.sapi.Sapi.TheVariants.{Zero, Three};
ghost use Rattle.link_model.specs.Base.{after_up, is_active};
ghost use Rattle.rsl_codec.specs.Rsl.{IsL3};
ghost use Rattle.world_ends.specs.Stations.{brought_on, counted_on, reported_on, with_sapi_three};

use crate::base_station::BaseStation;
use dtap_codec::{REPORT_LENGTH, RrMessage, Sapi};
use octets::{Memory, Octets};
use rsl_codec::{ChanNo, MeasurementNumber, MeasurementResult, Rsl};
use std::alloc::Global;

/// Frames and measurement reports that arrive from a mobile.
impl BaseStation {
    /// Takes a frame of a mobile on an active channel. On SAPI 0 an ESTABLISH INDICATION brings the
    /// frame if `opens`, since it is then the initial message, and otherwise a DATA INDICATION. On
    /// SAPI 3 a DATA INDICATION brings the frame; if the data link isn't up, an ESTABLISH
    /// INDICATION comes before it. Assumes: the channel is active, and the frame has 1 to 251
    /// octets.
    pub(crate) fn bring(
        &mut self,
        channel: ChanNo,
        opens: bool,
        sapi: Sapi,
        frame: &[u8],
    ) -> Result<(), Memory>
        requires active { is_active self.old.base.active channel ≡ true }
        requires l3 { IsL3 (Some frame.now) }
        ensures { OnOk result (self.new ≡ brought_on channel opens sapi frame.now self.old) }
    {
        match sapi {
            Sapi::Zero => self.bring_signalling(channel, opens, frame),
            Sapi::Three => self.bring_short_message(channel, frame),
        }
    }

    fn bring_signalling(&mut self, channel: ChanNo, opens: bool, frame: &[u8]) -> Result<(), Memory>
        requires active { is_active self.old.base.active channel ≡ true }
        requires l3 { IsL3 (Some frame.now) }
        ensures { OnOk result (self.new ≡ brought_on channel opens Zero frame.now self.old) }
    {
        if opens {
            return self.bring_initial(channel, frame);
        }
        self.bring_data(channel, Sapi::Zero, frame)
    }

    fn bring_initial(&mut self, channel: ChanNo, frame: &[u8]) -> Result<(), Memory>
        requires active { is_active self.old.base.active channel ≡ true }
        requires l3 { IsL3 (Some frame.now) }
        ensures { OnOk result (self.new ≡ brought_on channel true Zero frame.now self.old) }
    {
        self.base
            .establish(channel, Sapi::Zero, Some(frame))
            .map_err(|_| Memory)
    }

    fn bring_data(&mut self, channel: ChanNo, sapi: Sapi, frame: &[u8]) -> Result<(), Memory>
        requires active { is_active self.old.base.active channel ≡ true }
        requires l3 { IsL3 (Some frame.now) }
        ensures { OnOk result
            (self.new ≡ record self.old { base = after_up self.old.base channel sapi frame.now }) }
    {
        self.base.up(channel, sapi, frame).map_err(|_| Memory)
    }

    fn bring_short_message(&mut self, channel: ChanNo, frame: &[u8]) -> Result<(), Memory>
        requires active { is_active self.old.base.active channel ≡ true }
        requires l3 { IsL3 (Some frame.now) }
        ensures { OnOk result (self.new ≡ brought_on channel true Three frame.now self.old) }
    {
        if !self.is_sapi_three_up(channel) {
            self.establish(channel, Sapi::Three)?;
        }
        self.set_sapi_three(channel, true);
        self.bring_data(channel, Sapi::Three, frame)
    }

    /// Records whether the data link of SAPI 3 of a channel is up.
    pub(crate) fn set_sapi_three(&mut self, channel: ChanNo, up: bool)
        ensures { self.new ≡ with_sapi_three up channel self.old }
    {
        if let Some(channel) = self.channels.get_mut(usize::from(channel.octet())) {
            channel.set_sapi_three(up);
        }
    }

    /// Makes a MEASUREMENT RESULT with this measurement report and the count of reports before it
    /// in the tenure, modulo 256, without the station's own measurements. Assumes: the report has
    /// 16 octets (`REPORT_LENGTH`).
    pub(crate) fn report(&mut self, channel: ChanNo, report: &[u8]) -> Result<(), Memory>
        requires { length report.now ≡ REPORT_LENGTH }
        ensures { OnOk result (self.new ≡ reported_on channel report.now self.old) }
    {
        let number = MeasurementNumber(self.reports(channel));
        let l3 = report_text(self.alloc, report)?;
        self.count_report(channel);
        self.tell(Rsl::MeasurementResult(MeasurementResult {
            channel,
            number,
            uplink: None,
            bs_power: None,
            l1: None,
            l3: Some(l3),
        }))
    }

    fn count_report(&mut self, channel: ChanNo)
        ensures { self.new ≡ counted_on channel self.old }
    {
        if let Some(channel) = self.channels.get_mut(usize::from(channel.octet())) {
            channel.count_report();
        }
    }
}

// The text of a MEASUREMENT REPORT with these octets as its value.
fn report_text(alloc: Global, report: &[u8]) -> Result<Octets, Memory>
    requires { length report.now ≡ REPORT_LENGTH }
    ensures { IfOk result (λ text. text ≡ rr_text (MeasurementReport report.now)) }
{
    let Some(value) = report.first_chunk::<REPORT_LENGTH>() else {
        unreachable!()
    };
    let mut text = Vec::new(alloc);
    RrMessage::MeasurementReport { value: *value }.write(alloc, &mut text)?;
    Ok(Octets::new(text))
}
