// SPDX-License-Identifier: MIT OR Apache-2.0
use crate::exchanges::Event::{Breaks, Comes, Passes};
use crate::exchanges::Exchange;

/// A mobile gets through to the switch, on 41 of cell 1. Here and in the parts below, a comment
/// names the message that arrives and, after the colon, the messages that are put.
pub(crate) const ACCESS: &[Exchange] = &[
    // CHANNEL REQUIRED: CHANNEL ACTIVATION.
    (
        Comes(1, "0c130188137f01021105"),
        &[(1, "082101410300060400030100")],
    ),
    // CHANNEL ACTIVATION ACK: IMMEDIATE ASSIGN COMMAND.
    (
        Comes(1, "08220141080000"),
        &[(
            1,
            "0c1601902b172d063f004120147f010205002b2b2b2b2b2b2b2b2b2b2b",
        )],
    ),
    // ESTABLISH INDICATION: CR with COMPLETE LAYER 3 INFORMATION.
    (
        Comes(1, "0206014102000b0003052471"),
        &[(
            0,
            "010000010202040242fe0f1200105705080000f11000010001170305247100",
        )],
    ),
    // CC.
    (Comes(0, "020000018000010200"), &[]),
];

/// Three failures on 41 of cell 1: of ciphering, of a link of SAPI 3, and of an assignment to 0A.
pub(crate) const REJECTED: &[Exchange] = &[
    // CIPHER MODE COMMAND: CIPHER MODE REJECT.
    (
        Comes(0, "06000001000103000153"),
        &[(0, "06800001000106000459040140")],
    ),
    // A short message: ESTABLISH REQUEST. RELEASE INDICATION: SAPI N REJECT, and the short message
    // is dropped.
    (Comes(0, "060000010001050103020907"), &[(1, "020401410203")]),
    (
        Comes(1, "020901410203"),
        &[(0, "068000010001080006251883040125")],
    ),
    // ASSIGNMENT REQUEST: CHANNEL ACTIVATION.
    (
        Comes(0, "060000010001080006010b03010801"),
        &[(1, "0821010a0301060400010801")],
    ),
    // CHANNEL ACTIVATION ACK: ASSIGNMENT COMMAND.
    (
        Comes(1, "0822010a080000"),
        &[(1, "0301014102000b0006062e0a201400")],
    ),
    // ASSIGNMENT FAILURE of the mobile: ASSIGNMENT FAILURE, RF CHANNEL RELEASE.
    (
        Comes(1, "0302014102000b0003062f03"),
        &[(0, "0680000100010800060304010a1503"), (1, "082e010a")],
    ),
    (Comes(1, "0833010a"), &[]),
];

/// Messages of both SAPIs in both directions, on 41 of cell 1.
pub(crate) const SHORT_MESSAGES: &[Exchange] = &[
    // The first short message waits until the link of SAPI 3 is established.
    (Comes(0, "060000010001050103020901"), &[(1, "020401410203")]),
    (Comes(1, "020501410203"), &[(1, "0301014102030b00020901")]),
    (
        Comes(0, "060000010001050103020902"),
        &[(1, "0301014102030b00020902")],
    ),
    (
        Comes(1, "0302014102030b00020904"),
        &[(0, "068000010001050183020904")],
    ),
    (
        Comes(1, "0302014102000b00020345"),
        &[(0, "068000010001050100020345")],
    ),
    (
        Comes(0, "060000010001050100028302"),
        &[(1, "0301014102000b00028302")],
    ),
];

/// A handover from 41 of cell 1 to 41 of cell 2, up to HANDOVER COMMAND.
pub(crate) const COMMANDED: &[Exchange] = &[
    // A report, number 5: cell 2 is heard better. CHANNEL ACTIVATION.
    (
        Comes(
            1,
            "082801411b05190314140004000b0012061514140057024000000000000000000000",
        ),
        &[(2, "0821014103020604000301000900")],
    ),
    // CHANNEL ACTIVATION ACK: HANDOVER COMMAND.
    (
        Comes(2, "08220141080000"),
        &[(1, "0301014102000b0009062b121e41401e0000")],
    ),
];

/// The handover completes. The messages that the switch sent meanwhile are handed on the new
/// channel. The messages that arrive on the new channel wait until the old channel is released.
pub(crate) const HANDED_OVER: &[Exchange] = &[
    (Comes(0, "060000010001050103020903"), &[]),
    (Comes(0, "060000010001050100028306"), &[]),
    // HANDOVER COMPLETE: HANDOVER PERFORMED, RF CHANNEL RELEASE, DATA REQUEST, ESTABLISH REQUEST.
    (
        Comes(2, "0302014102000b0003062c00"),
        &[
            (0, "06800001000110000e1704010c05080000f11000010002"),
            (1, "082e0141"),
            (2, "0301014102000b00028306"),
            (2, "020401410203"),
        ],
    ),
    (Comes(2, "020501410203"), &[(2, "0301014102030b00020903")]),
    (Comes(2, "0302014102000b00020385"), &[]),
    // RF CHANNEL RELEASE ACK.
    (Comes(1, "08330141"), &[(0, "068000010001050100020385")]),
];

/// An assignment from 41 to 0A of cell 2.
pub(crate) const ASSIGNED: &[Exchange] = &[
    // ASSIGNMENT REQUEST: CHANNEL ACTIVATION.
    (
        Comes(0, "060000010001080006010b03010801"),
        &[(2, "0821010a0301060400010801")],
    ),
    // CHANNEL ACTIVATION ACK: ASSIGNMENT COMMAND.
    (
        Comes(2, "0822010a080000"),
        &[(2, "0301014102000b0006062e0a401e00")],
    ),
    (Comes(0, "060000010001050103020905"), &[]),
    // ASSIGNMENT COMPLETE: ASSIGNMENT COMPLETE, RF CHANNEL RELEASE, ESTABLISH REQUEST.
    (
        Comes(2, "0302010a02000b0003062900"),
        &[
            (0, "068000010001050003021500"),
            (2, "082e0141"),
            (2, "0204010a0243"),
        ],
    ),
    (Comes(2, "0205010a0243"), &[(2, "0301010a02430b00020905")]),
    (Comes(2, "08330141"), &[]),
    (
        Comes(2, "0302010a02430b00020906"),
        &[(0, "0680000100010501c3020906")],
    ),
];

/// CLEAR COMMAND on 0A of cell 2, RLSD, and the channel is freed.
pub(crate) const CLEARED: &[Exchange] = &[
    // CHANNEL RELEASE, RF CHANNEL RELEASE, CLEAR COMPLETE; RLC.
    (
        Comes(0, "06000001000106000420040109"),
        &[
            (2, "0301010a02000b0003060d00"),
            (2, "082e010a"),
            (0, "06800001000103000121"),
        ],
    ),
    (Comes(0, "040000018000010000"), &[(0, "05800001000001")]),
    (Comes(2, "0833010a"), &[]),
];

/// A life from access to release.
pub(crate) const LIFE: &[&[Exchange]] = &[
    ACCESS,
    REJECTED,
    SHORT_MESSAGES,
    COMMANDED,
    HANDED_OVER,
    ASSIGNED,
    CLEARED,
];

/// An old channel drains for at most two seconds. A mobile that asks for a channel is dropped when
/// the link of the switch breaks.
pub(crate) const EXPIRES_AND_BREAKS: &[Exchange] = &[
    (
        Comes(2, "0302014102000b0003062c00"),
        &[
            (0, "06800001000110000e1704010c05080000f11000010002"),
            (1, "082e0141"),
        ],
    ),
    (Passes(1999), &[]),
    // The drain time is over: CLEAR REQUEST, CHANNEL RELEASE, RF CHANNEL RELEASE.
    (
        Passes(1),
        &[
            (0, "06800001000106000422040120"),
            (2, "0301014102000b0003060d01"),
            (2, "082e0141"),
        ],
    ),
    (
        Comes(1, "0c130188137f01021105"),
        &[(1, "082101490300060400030100")],
    ),
    (Breaks(0), &[(1, "082e0149")]),
];
