//! Messages that are lost, late or handed over twice, and sites that restart.

use super::Script;

/// A page that is lost is sent again after a tick.
pub const LOST_PAGE: Script = Script {
    name: "lost page",
    input: b"sites 2 preset 1\n\
        store 0 0 255 200\n\
        store 1 0 0 1\n\
        deliver 0\n\
        deliver 1\n\
        lose 2\n\
        tick 0\n\
        deliver 3\n\
        deliver 4\n\
        load 1 0 255\n\
        deliver 5\n",
    text: b"1 ready\n\
        2 stored\n\
        3 fault m0>0:Ask\n\
        4 took m1>0:Hand\n\
        5 took m2>1:Page\n\
        6 took\n\
        7 took m3>0:Hand\n\
        8 took m4>1:Page\n\
        9 took m5>0:Confirm\n\
        10 byte 200\n\
        11 took\n",
    lines: 11,
    events: 10,
    sent: 6,
};

/// A request that is handed over twice.
pub const REPEATED_ASK: Script = Script {
    name: "repeated ask",
    input: b"sites 2 preset 1\n\
        load 1 0 0\n\
        load 1 0 0\n\
        repeat 0\n\
        deliver 0\n\
        deliver 5\n\
        repeat 1\n\
        deliver 1\n\
        store 0 0 0 1\n",
    text: b"1 ready\n\
        2 fault m0>0:Ask\n\
        3 waiting\n\
        4 took m1>0:Hand\n\
        5 dropped\n\
        6 refused 15\n\
        7 took m2>1:Page\n\
        8 took m3>1:Page\n\
        9 fault m4>0:Ask\n",
    lines: 9,
    events: 8,
    sent: 5,
};

/// An order to hand a page over that is handed over twice.
pub const REPEATED_HAND: Script = Script {
    name: "repeated hand",
    input: b"sites 2 preset 1\n\
        store 1 0 0 4\n\
        deliver 0\n\
        repeat 1\n\
        deliver 1\n\
        deliver 3\n\
        store 1 0 0 4\n\
        deliver 2\n\
        load 1 0 0\n",
    text: b"1 ready\n\
        2 fault m0>0:Ask\n\
        3 took m1>0:Hand\n\
        4 took m2>1:Page\n\
        5 took m3>1:Page\n\
        6 took m4>0:Confirm\n\
        7 stored\n\
        8 took m5>0:Confirm\n\
        9 byte 4\n",
    lines: 9,
    events: 8,
    sent: 6,
};

/// A page that is handed over twice.
pub const REPEATED_PAGE: Script = Script {
    name: "repeated page",
    input: b"sites 2 preset 1\n\
        store 1 0 0 4\n\
        deliver 0\n\
        deliver 1\n\
        repeat 2\n\
        store 1 0 0 4\n\
        deliver 2\n\
        load 1 0 0\n\
        deliver 3\n\
        deliver 4\n",
    text: b"1 ready\n\
        2 fault m0>0:Ask\n\
        3 took m1>0:Hand\n\
        4 took m2>1:Page\n\
        5 took m3>0:Confirm\n\
        6 stored\n\
        7 took m4>0:Confirm\n\
        8 byte 4\n\
        9 took\n\
        10 dropped\n",
    lines: 10,
    events: 9,
    sent: 5,
};

/// A page that comes after it was cleared.
pub const STALE_PAGE_AFTER_CLEAR: Script = Script {
    name: "stale page after clear",
    input: b"sites 2 preset 1\n\
        load 1 0 0\n\
        deliver 0\n\
        deliver 1\n\
        repeat 2\n\
        deliver 3\n\
        store 0 0 0 8\n\
        deliver 4\n\
        deliver 5\n\
        deliver 6\n\
        deliver 7\n\
        deliver 2\n\
        load 1 0 0\n\
        store 0 0 0 8\n",
    text: b"1 ready\n\
        2 fault m0>0:Ask\n\
        3 took m1>0:Hand\n\
        4 took m2>1:Page\n\
        5 took m3>0:Confirm\n\
        6 took\n\
        7 fault m4>0:Ask\n\
        8 took m5>1:Clear\n\
        9 took m6>0:Cleared\n\
        10 took m7>0:Hand\n\
        11 took m8>0:Confirm\n\
        12 dropped\n\
        13 fault m9>0:Ask\n\
        14 stored\n",
    lines: 14,
    events: 13,
    sent: 10,
};

/// A site restarts while its request is served.
pub const REQUESTER_RESTARTS: Script = Script {
    name: "requester restarts",
    input: b"sites 2 preset 1\n\
        load 1 0 0\n\
        deliver 0\n\
        deliver 1\n\
        restart 1\n\
        load 1 0 0\n\
        deliver 2\n\
        load 1 0 0\n\
        deliver 3\n\
        deliver 4\n\
        deliver 5\n\
        deliver 6\n\
        deliver 7\n",
    text: b"1 ready\n\
        2 fault m0>0:Ask\n\
        3 took m1>0:Hand\n\
        4 took m2>1:Page\n\
        5 took\n\
        6 fault m3>0:Ask\n\
        7 took m4>0:Confirm\n\
        8 byte 0\n\
        9 took\n\
        10 took m5>0:Hand\n\
        11 took m6>1:Page\n\
        12 took m7>0:Confirm\n\
        13 took\n",
    lines: 13,
    events: 12,
    sent: 8,
};

/// A manager restarts while it clears copies.
pub const MANAGER_RESTARTS_WHILE_CLEARING: Script = Script {
    name: "manager restarts while clearing",
    input: b"sites 3 preset 1\n\
        load 1 0 0\n\
        deliver 0\n\
        deliver 1\n\
        deliver 2\n\
        deliver 3\n\
        load 2 0 0\n\
        deliver 4\n\
        deliver 5\n\
        deliver 6\n\
        deliver 7\n\
        store 0 0 0 3\n\
        deliver 8\n\
        deliver 9\n\
        deliver 11\n\
        restart 0\n\
        tick 0\n\
        deliver 10\n\
        deliver 12\n\
        deliver 14\n\
        deliver 15\n\
        deliver 16\n\
        deliver 17\n\
        deliver 13\n\
        deliver 18\n\
        store 0 0 0 3\n\
        load 1 0 0\n",
    text: b"1 ready\n\
        2 fault m0>0:Ask\n\
        3 took m1>0:Hand\n\
        4 took m2>1:Page\n\
        5 took m3>0:Confirm\n\
        6 took\n\
        7 fault m4>0:Ask\n\
        8 took m5>0:Hand\n\
        9 took m6>2:Page\n\
        10 took m7>0:Confirm\n\
        11 took\n\
        12 fault m8>0:Ask\n\
        13 took m9>1:Clear m10>2:Clear\n\
        14 took m11>0:Cleared\n\
        15 took\n\
        16 took\n\
        17 took m12>1:Clear m13>2:Clear\n\
        18 took m14>0:Cleared\n\
        19 took m15>0:Cleared\n\
        20 took\n\
        21 took m16>0:Hand\n\
        22 took m17>0:Confirm\n\
        23 took\n\
        24 took m18>0:Cleared\n\
        25 dropped\n\
        26 stored\n\
        27 fault m19>0:Ask\n",
    lines: 27,
    events: 26,
    sent: 20,
};

/// What a tick sends, and in which order.
pub const TICK_ORDER: Script = Script {
    name: "tick order",
    input: b"sites 2 preset 5\n\
        load 0 0 12288\n\
        load 0 0 4096\n\
        load 1 0 16384\n\
        load 1 0 0\n\
        load 1 0 8192\n\
        deliver 2\n\
        deliver 4\n\
        deliver 3\n\
        store 0 0 12288 1\n\
        stat 0 0 0 0\n\
        tick 0\n\
        deliver 5\n\
        deliver 15\n\
        tick 0\n\
        deliver 0\n\
        tick 1\n\
        tick 0\n",
    text: b"1 ready\n\
        2 fault m0>1:Ask\n\
        3 fault m1>1:Ask\n\
        4 fault m2>0:Ask\n\
        5 fault m3>0:Ask\n\
        6 fault m4>0:Ask\n\
        7 took m5>0:Hand\n\
        8 took m6>0:Hand\n\
        9 took m7>0:Hand\n\
        10 fault m8>1:Ask\n\
        11 began 1 m9>0:Call\n\
        12 took m10>1:Ask m11>1:Ask m12>0:Hand m13>0:Hand m14>0:Hand m15>0:Call\n\
        13 took m16>1:Page\n\
        14 took m17>0:Reply\n\
        15 took m18>1:Ask m19>1:Ask m20>0:Hand m21>0:Hand m22>0:Hand m23>0:Call\n\
        16 took m24>1:Hand\n\
        17 took m25>0:Ask m26>0:Ask m27>0:Ask m28>1:Hand\n\
        18 took m29>1:Ask m30>1:Ask m31>0:Hand m32>0:Hand m33>0:Hand m34>0:Call\n",
    lines: 18,
    events: 17,
    sent: 35,
};

/// As many requests wait at a manager as may.
pub const SIXTEEN_WAIT: Script = Script {
    name: "sixteen wait",
    input: b"sites 3 preset 1\n\
        load 1 0 0\n\
        deliver 0\n\
        load 2 0 0\n\
        restart 2\n\
        load 2 0 0\n\
        restart 2\n\
        load 2 0 0\n\
        restart 2\n\
        load 2 0 0\n\
        restart 2\n\
        load 2 0 0\n\
        restart 2\n\
        load 2 0 0\n\
        restart 2\n\
        load 2 0 0\n\
        restart 2\n\
        load 2 0 0\n\
        restart 2\n\
        load 2 0 0\n\
        restart 2\n\
        load 2 0 0\n\
        restart 2\n\
        load 2 0 0\n\
        restart 2\n\
        load 2 0 0\n\
        restart 2\n\
        load 2 0 0\n\
        restart 2\n\
        load 2 0 0\n\
        restart 2\n\
        load 2 0 0\n\
        restart 2\n\
        load 2 0 0\n\
        restart 2\n\
        load 2 0 0\n\
        restart 2\n\
        deliver 2\n\
        deliver 3\n\
        deliver 4\n\
        deliver 5\n\
        deliver 6\n\
        deliver 7\n\
        deliver 8\n\
        deliver 9\n\
        deliver 10\n\
        deliver 11\n\
        deliver 12\n\
        deliver 13\n\
        deliver 14\n\
        deliver 15\n\
        deliver 16\n\
        deliver 17\n\
        repeat 18\n\
        deliver 1\n\
        deliver 19\n\
        show 0 0\n\
        deliver 20\n\
        deliver 18\n\
        show 0 0\n",
    text: b"1 ready\n\
        2 fault m0>0:Ask\n\
        3 took m1>0:Hand\n\
        4 fault m2>0:Ask\n\
        5 took\n\
        6 fault m3>0:Ask\n\
        7 took\n\
        8 fault m4>0:Ask\n\
        9 took\n\
        10 fault m5>0:Ask\n\
        11 took\n\
        12 fault m6>0:Ask\n\
        13 took\n\
        14 fault m7>0:Ask\n\
        15 took\n\
        16 fault m8>0:Ask\n\
        17 took\n\
        18 fault m9>0:Ask\n\
        19 took\n\
        20 fault m10>0:Ask\n\
        21 took\n\
        22 fault m11>0:Ask\n\
        23 took\n\
        24 fault m12>0:Ask\n\
        25 took\n\
        26 fault m13>0:Ask\n\
        27 took\n\
        28 fault m14>0:Ask\n\
        29 took\n\
        30 fault m15>0:Ask\n\
        31 took\n\
        32 fault m16>0:Ask\n\
        33 took\n\
        34 fault m17>0:Ask\n\
        35 took\n\
        36 fault m18>0:Ask\n\
        37 took\n\
        38 took\n\
        39 took\n\
        40 took\n\
        41 took\n\
        42 took\n\
        43 took\n\
        44 took\n\
        45 took\n\
        46 took\n\
        47 took\n\
        48 took\n\
        49 took\n\
        50 took\n\
        51 took\n\
        52 took\n\
        53 took\n\
        54 dropped\n\
        55 took m19>1:Page\n\
        56 took m20>0:Confirm\n\
        57 page 0:OwnRead/1 1:Copy/1 2:Nil/0 owner 0 copies - t 1 read 1\n\
        58 took m21>0:Hand\n\
        59 took\n\
        60 page 0:OwnRead/1 1:Copy/1 2:Nil/0 owner 0 copies 1 t 2 read 2\n",
    lines: 60,
    events: 57,
    sent: 22,
};
