// SPDX-License-Identifier: MIT OR Apache-2.0
use crate::advice::{kind, known, name_of, table_in, table_of, twice, values};
use crate::faulty_cell::faulty_cell;
use crate::lines::{line_at, line_of_head};
use settings::{Key, SettingsFault};
use std::alloc::Global;
use std::fmt;

/// A hint on a fault of the settings: where the fault is, and what is allowed there. The hint is
/// printed after the name of the file, for example `, line 93, cell 7: 1 to 1023`.
#[derive(Clone, Copy)]
pub struct Hint {
    position: Position,
    advice: Advice,
}

/// The position of a fault, as far as the position is known.
#[derive(Clone, Copy)]
struct Position {
    /// The line of the text, counted from 1. For a fault of a key, this is the line of the head of
    /// the key's table.
    line: Option<usize>,
    /// The number of the cell, counted from 1, if the fault is in a cell.
    cell: Option<usize>,
}

/// The advice of a hint.
#[derive(Clone, Copy)]
enum Advice {
    /// The text isn't TOML, for this reason.
    Toml(toml::de::Error),
    /// The type of the value, and the allowed values.
    Value(&'static str, &'static str),
    /// Any other advice, in these words.
    Words(&'static str),
}

/// An unknown position.
const NOWHERE: Position = Position {
    line: None,
    cell: None,
};

/// The hint on `fault`, which must be the first fault of the settings in `text`. `None` if the
/// fault is `Memory`. Also `None` if the fault is `NotToml` and parsing the text again gives no
/// error with a position, as when memory runs out.
pub fn hint_of(alloc: Global, text: &str, fault: &SettingsFault) -> Option<Hint> {
    match fault {
        SettingsFault::NotToml => not_toml(alloc, text),
        SettingsFault::Unknown(name) => {
            let table = table_in(name.as_str());
            Some(Hint {
                position: position_in(alloc, text, table, name.as_str()),
                advice: Advice::Words(known(table)),
            })
        }
        SettingsFault::Missing(key) | SettingsFault::BadType(key) => {
            Some(of_key(alloc, text, *key, Advice::Value(kind(*key), values(*key))))
        }
        SettingsFault::BadValue(key) => {
            Some(of_key(alloc, text, *key, Advice::Words(values(*key))))
        }
        SettingsFault::Repeated(key) => {
            Some(of_key(alloc, text, *key, Advice::Words(twice(*key))))
        }
        SettingsFault::Memory => None,
    }
}

/// The hint on a text that isn't TOML; `None` if parsing the text gives no error with a position.
fn not_toml(alloc: Global, text: &str) -> Option<Hint> {
    match toml::table_from_str(alloc, text) {
        Ok(_) => None,
        Err(error) => {
            let span = error.span()?;
            let line = line_at(text.as_bytes(), span.start);
            Some(Hint {
                position: Position {
                    line: Some(line),
                    cell: None,
                },
                advice: Advice::Toml(error),
            })
        }
    }
}

/// The hint with this advice on a fault of `key`.
fn of_key(alloc: Global, text: &str, key: Key, advice: Advice) -> Hint {
    Hint {
        position: match table_of(key) {
            None => NOWHERE,
            table => position_in(alloc, text, table, ""),
        },
        advice,
    }
}

/// The position of a fault in `table`. If `table` is `None`, the position of the table `name` at
/// the top level.
fn position_in(alloc: Global, text: &str, table: Option<Key>, name: &str) -> Position {
    match table {
        Some(Key::Cell) => match faulty_cell(alloc, text) {
            Some(cell) => Position {
                line: line_of_head(text, name_of(Key::Cell), cell.number, cell.count),
                cell: Some(cell.number),
            },
            None => NOWHERE,
        },
        Some(table) => Position {
            line: line_of_head(text, name_of(table), 1, 1),
            cell: None,
        },
        None => Position {
            line: line_of_head(text, name, 1, 1),
            cell: None,
        },
    }
}

impl fmt::Display for Hint {
    fn fmt<W: fmt::Write>(&self, f: &mut fmt::Formatter<W>) -> fmt::Result {
        if let Some(line) = self.position.line {
            write!(f, ", line {line}")?;
        }
        if let Some(cell) = self.position.cell {
            write!(f, ", cell {cell}")?;
        }
        f.write_str(": ")?;
        match &self.advice {
            Advice::Toml(error) => f.write_str(error.message()),
            Advice::Value(kind, values) => write!(f, "{kind}{values}"),
            Advice::Words(words) => f.write_str(words),
        }
    }
}
