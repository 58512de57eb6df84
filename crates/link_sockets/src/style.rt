// SPDX-License-Identifier: MIT OR Apache-2.0
// The beginning of a line of the log.
ghost use Rattle.std.specs.Prelude.{[], Some, None, true};

use jiff::Timestamp;
use log::kv::Source;
use log::span::Spans;
use log::{Level, Line, Log, Metadata, Record};
use std::fmt::Display;
use std::time::Clock;

/// The text that a line of the log has before its level.
#[derive(Clone, Copy)]
pub(crate) enum Style {
    /// Nothing.
    Plain,
    /// The severity for journald: `<3>` for an error, `<4>` for a warning, else `<6>`.
    Journal,
    /// The time in UTC with milliseconds, as in RFC 3339. Nothing if the system gives no time.
    Time,
}

impl Style {
    /// The style with this name; `None` if no style has this name.
    pub(crate) fn of_name(name: &str) -> Option<Style> {
        match name {
            "plain" => Some(Style::Plain),
            "journal" => Some(Style::Journal),
            "time" => Some(Style::Time),
            _ => None,
        }
    }
}

/// Writes the lines of the log to standard error.
#[derive(Clone, Copy, Drop)]
pub(crate) struct StyledLines<R> {
    pub(crate) rt: R,
    pub(crate) style: Style,
}

impl<R: Eprint + Clock> Log for StyledLines<R> {
    ghost enables = { λ _ _ _. Some true };

    ghost target_of = { λ _. Some [] };

    fn enabled(&self, _metadata: &Metadata<'_>) -> bool {
        true
    }

    fn log<D: Display, K: Source, S: Spans>(&self, record: &Record<'_, D, K, S>) {
        let line = Line::new(record);
        let _ = match self.style {
            Style::Plain => self.rt.eprintln(line),
            Style::Journal => {
                let severity = severity_of(record.level());
                self.rt.eprintln(format_args!("<{severity}>{line}"))
            }
            Style::Time => match Timestamp::now(&self.rt) {
                Ok(now) => self.rt.eprintln(format_args!("{now:.3} {line}")),
                Err(_) => self.rt.eprintln(line),
            },
        };
    }

    fn flush(&self) {}

    fn target(&self) -> &str {
        ""
    }
}

/// The severity of a line of this level, by RFC 5424 clause 6.2.1.
fn severity_of(level: Level) -> u8 {
    match level {
        Level::Error => 3,
        Level::Warn => 4,
        _ => 6,
    }
}
