// SPDX-License-Identifier: MIT OR Apache-2.0
ghost use Rattle.std.specs.Prelude.{◌≡◌};
ghost use Rattle.judge_report.specs.FaultText.{goal_text, origin_text};

/// The direction of messages: `Up` from the mobile to the switch, or `Down`.
#[derive(Clone, Copy)]
pub(crate) enum Direction {
    Up,
    Down,
}

impl Direction {
    /// The origin of a message, in words.
    pub(crate) fn origin(self) -> &'static str
        ensures { result.now ≡ origin_text self }
    {
        match self {
            Direction::Up => "from the station",
            Direction::Down => "from the switch",
        }
    }

    /// The place to which the controller passes a message, in words.
    pub(crate) fn goal(self) -> &'static str
        ensures { result.now ≡ goal_text self }
    {
        match self {
            Direction::Up => "at the switch",
            Direction::Down => "handed",
        }
    }
}
