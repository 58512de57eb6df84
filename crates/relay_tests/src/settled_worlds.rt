// SPDX-License-Identifier: MIT OR Apache-2.0
use crate::program::{Command, Row, all_answer};

/// Settings of two cells.
pub(crate) const USUAL: &str =
    "[network]\nmcc = \"001\"\nmnc = \"01\"\n[switch]\naddress = \"127.0.0.1:5000\"\n\
    [[cell]]\nlisten = \"127.0.0.1:3003\"\nlac = 1\nci = 1\narfcn = 20\nbsic = 9\n\
    channels = [0x41, 0x49, 0x0a]\n[[cell]]\nlisten = \"127.0.0.1:3004\"\nlac = 1\nci = 2\n\
    arfcn = 30\nbsic = 18\nchannels = [0x41, 0x0a]\n";

/// Settings of the same two cells, in which each report leads to a decision.
pub(crate) const EAGER: &str =
    "[network]\nmcc = \"001\"\nmnc = \"01\"\n[switch]\naddress = \"127.0.0.1:5000\"\n\
    [handover1]\npower_budget_interval = 1\n[[cell]]\nlisten = \"127.0.0.1:3003\"\nlac = 1\n\
    ci = 1\narfcn = 20\nbsic = 9\nchannels = [0x41, 0x49, 0x0a]\n[[cell]]\n\
    listen = \"127.0.0.1:3004\"\nlac = 1\nci = 2\narfcn = 30\nbsic = 18\n\
    channels = [0x41, 0x0a]\n";

/// The settings of `EAGER`, with the message numbers of the older release.
const OLDER: &str = "[network]\nmcc = \"001\"\nmnc = \"01\"\nrelease98 = true\n[switch]\n\
    address = \"127.0.0.1:5000\"\n[handover1]\npower_budget_interval = 1\n[[cell]]\n\
    listen = \"127.0.0.1:3003\"\nlac = 1\nci = 1\narfcn = 20\nbsic = 9\n\
    channels = [0x41, 0x49, 0x0a]\n[[cell]]\nlisten = \"127.0.0.1:3004\"\nlac = 1\nci = 2\n\
    arfcn = 30\nbsic = 18\nchannels = [0x41, 0x0a]\n";

/// A mobile opens a connection.
const OPENED: &[u8] =
    b"connect 1 1 052471 y\nbasepush 1\nhandle\nbasetakes 1\nbasepush 1\nhandle\nbasetakes 1\n\
    airup 1 0\nbasepush 1\nhandle\nswitchtakes\nairack 1 0\nbasepush 0\nhandle\n";

/// A mobile opens a connection, and is assigned another channel. The message in the air arrives
/// twice.
const ASSIGNED: &[u8] =
    b"connect 1 1 052471 y\nbasepush 1\nhandle\nbasetakes 1\nbasepush 1\nhandle\nbasetakes 1\n\
    airup 1 0\nbasepush 1\nhandle\nswitchtakes\nairack 1 0\nbasepush 0\nhandle\n\
    upper 1 0 0305\nairup 1 0\nbasepush 1\nhandle\nswitchdoes assign 1\nbasepush 0\nhandle\n\
    basetakes 1\nbasepush 1\nhandle\nbasetakes 1\nairdown 1\nmove 1\narrive 1\nbasepush 1\n\
    handle\nairup 1 0\nbasepush 1\nhandle\nairack 1 0\nairup 1 0\nbasepush 1\nhandle\n\
    basetakes 1\nbasepush 1\nhandle\nswitchtakes\nswitchtakes\nswitchtakes\n";

/// A mobile opens a connection, and is handed over. The mobile's last message on the old channel
/// arrives late.
pub(crate) const HANDED_OVER: &[u8] =
    b"connect 1 1 052471 y\nbasepush 1\nhandle\nbasetakes 1\nbasepush 1\nhandle\nbasetakes 1\n\
    airup 1 0\nbasepush 1\nhandle\nswitchtakes\nairack 1 0\nbasepush 0\nhandle\n\
    report 1 14140057024000000000000000000000\nbasepush 1\nhandle\nbasetakes 2\nbasepush 2\n\
    handle\nupper 1 0 0305\nairup 1 0\nairack 1 0\nupper 1 0 030f\nbasetakes 1\nairdown 1\n\
    move 1\ntouch 1\narrive 1\nairup 1 0\nairack 1 0\nairup 1 0\nbasepush 2\nhandle\n\
    basepush 2\nhandle\nbasepush 2\nhandle\nbasepush 2\nhandle\nbasepush 1\nhandle\n\
    basetakes 1\nbasepush 1\nhandle\nswitchtakes\nswitchtakes\nswitchtakes\n";

/// The output of `replay` for scripts in the world of the settings, and for breaks of a link at
/// each place of a script. Faults follow, first a fault of the settings.
const ROWS: &[(Command, Row)] = &[
    (
        Command::Replay(Some(USUAL), None),
        (
            ASSIGNED,
            0,
            "mobile 1 sent 2\n052471\n0305\nmobile 1 received 0\nconn 1 taken 3\n052471\n\
            0345\n0345\nconn 1 accepted 2\n052471\n0305\nconn 1 unnumbered 0\n\
            events not taken 0\n",
            "",
        ),
    ),
    (
        Command::Replay(Some(EAGER), None),
        (
            HANDED_OVER,
            0,
            "mobile 1 sent 3\n052471\n0305\n030f\nmobile 1 received 0\nconn 1 taken 3\n\
            052471\n0345\n038f\nconn 1 accepted 3\n052471\n0305\n030f\n\
            conn 1 unnumbered 0\nevents not taken 0\n",
            "",
        ),
    ),
    (
        Command::Replay(Some(OLDER), None),
        (
            HANDED_OVER,
            0,
            "mobile 1 sent 3\n052471\n0305\n030f\nmobile 1 received 0\nconn 1 taken 3\n\
            052471\n0345\n030f\nconn 1 accepted 3\n052471\n0305\n030f\n\
            conn 1 unnumbered 0\nevents not taken 0\n",
            "",
        ),
    ),
    (
        Command::Replay(Some(USUAL), Some("1")),
        (
            OPENED,
            0,
            "break 0 accepted 0 sent 0\nbreak 1 accepted 0 sent 1\n\
            break 2 accepted 0 sent 1\nbreak 3 accepted 0 sent 1\n\
            break 4 accepted 0 sent 1\nbreak 5 accepted 0 sent 1\n\
            break 6 accepted 0 sent 1\nbreak 7 accepted 0 sent 1\n\
            break 8 accepted 0 sent 1\nbreak 9 accepted 1 sent 1\n\
            break 10 accepted 1 sent 1\nbreak 11 accepted 1 sent 1\n\
            break 12 accepted 1 sent 1\nbreak 13 accepted 1 sent 1\n\
            break 14 accepted 1 sent 1\n",
            "",
        ),
    ),
    (
        Command::Replay(Some(USUAL), Some("0")),
        (
            OPENED,
            0,
            "break 0 accepted 0 sent 1\nbreak 1 accepted 0 sent 1\n\
            break 2 accepted 0 sent 1\nbreak 3 accepted 0 sent 1\n\
            break 4 accepted 0 sent 1\nbreak 5 accepted 0 sent 1\n\
            break 6 accepted 0 sent 1\nbreak 7 accepted 0 sent 1\n\
            break 8 accepted 0 sent 1\nbreak 9 accepted 0 sent 1\n\
            break 10 accepted 0 sent 1\nbreak 11 accepted 1 sent 1\n\
            break 12 accepted 1 sent 1\nbreak 13 accepted 1 sent 1\n\
            break 14 accepted 1 sent 1\n",
            "",
        ),
    ),
    (
        Command::Replay(Some("x ="), Some("3")),
        (b"handle", 1, "", "bsc: settings: not TOML\n"),
    ),
    (
        Command::Replay(Some(USUAL), None),
        (b"handle\nbasetakes 3", 2, "", "bsc: line 2: bad event\n"),
    ),
];

#[test]
fn scripts_are_replayed_in_the_world_of_settings(rt: HostRuntime) {
    all_answer(&rt, ROWS);
}
