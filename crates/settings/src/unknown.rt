// SPDX-License-Identifier: MIT OR Apache-2.0
// Checks that a table has no unknown key.
ghost use Rattle.std.specs.Prelude.{◌≡◌, not, find, option_map, string_bytes};
ghost use Rattle.std.specs.Option.{option_copied};
ghost use Rattle.std.specs.BTreeMap.{IsOrdered, keys};
ghost use Rattle.std.specs.String.{string_cmp};
ghost use Rattle.toml.specs.View.{table_view};
ghost use Rattle.settings.specs.Answer.{Finds};
ghost use Rattle.settings.specs.Faults.{is_known, least_unknown, unknown_fault};
ghost use Rattle.settings.specs.Reading.{as_it_is};

use crate::Key;
use crate::finding::Finding;
use toml::Table;

// Refuses a table that has a key other than the known ones. `Err` names the least unknown key.
// `place` is the key of the table, or `None` at the top level.
pub(crate) fn refuse_unknown<'a>(
    table: &'a Table,
    place: Option<Key>,
    known: &[Key],
) -> Result<(), Finding<'a>>
    ensures { Finds result as_it_is tt (unknown_fault place known.now (table_view table.now)) }
{
    match least_other(table, known) {
        None => Ok(()),
        Some(name) => Err(Finding::Unknown(place, name.as_str())),
    }
}

// The least name in the table that is none of the known keys; `None` if all keys are known. The
// names of a table are sorted, so the first unknown name is the least.
fn least_other<'a>(table: &'a Table, known: &[Key]) -> Option<&'a String>
    ensures { option_map (λ name. string_bytes name) (option_copied result) ≡
        least_unknown known.now (table_view table.now) }
{
    first_other(table, known)
}

fn first_other<'a>(table: &'a Table, known: &[Key]) -> Option<&'a String>
    ensures first { option_copied result ≡
        find (λ name. not (is_known known.now (string_bytes name))) (keys table.now) }
    ensures ordered { IsOrdered string_cmp table.now }
{
    table.keys().find(|name| !has_name(known, name.as_str()))
}

fn has_name(known: &[Key], name: &str) -> bool
    ensures { result ≡ is_known known.now name.now }
{
    known.iter().any(|key| key.name() == name)
}
