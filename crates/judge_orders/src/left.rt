// SPDX-License-Identifier: MIT OR Apache-2.0
ghost use Rattle.std.specs.Prelude.{IfOk};
ghost use Rattle.run_judge.specs.JudgeState.{shown};
ghost use Rattle.judge_orders.specs.Left.{AreLeft};

use octets::Memory;
use run_judge::{Connection, Judge};

/// The connections that are still open, sorted by number.
pub(crate) fn left_in_order(judge: Judge) -> Result<Vec<Connection>, Memory>
    ensures { IfOk result (λ left. AreLeft (shown judge) left.items) }
{
    let mut left = judge.finish()?;
    left.sort_by_key(|connection| connection.number)?;
    Ok(left)
}
