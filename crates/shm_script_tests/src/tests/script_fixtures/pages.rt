//! Pages that are read, written and handed over while nothing is lost.

use super::Script;

/// A read fault brings a copy of the page.
pub const FIRST_READ_FAULT: Script = Script {
    name: "first read fault",
    input: b"sites 2 preset 1\n\
        store 0 0 0 7\n\
        load 1 0 0\n\
        deliver 0\n\
        deliver 1\n\
        deliver 2\n\
        deliver 3\n\
        load 1 0 0\n",
    text: b"1 ready\n\
        2 stored\n\
        3 fault m0>0:Ask\n\
        4 took m1>0:Hand\n\
        5 took m2>1:Page\n\
        6 took m3>0:Confirm\n\
        7 took\n\
        8 byte 7\n",
    lines: 8,
    events: 7,
    sent: 4,
};

/// Each page of a segment has its own manager.
pub const PAGES_AT_MANAGERS: Script = Script {
    name: "pages at managers",
    input: b"sites 2 preset 2\n\
        store 0 0 4095 1\n\
        store 0 0 4096 2\n\
        store 1 0 4096 2\n\
        load 1 0 4096\n\
        load 1 0 8192\n\
        load 0 1 0\n\
        load 2 0 0\n\
        show 0 1\n\
        show 0 256\n\
        show 131071 255\n\
        show 131072 0\n",
    text: b"1 ready\n\
        2 stored\n\
        3 fault m0>1:Ask\n\
        4 stored\n\
        5 byte 2\n\
        6 refused 11\n\
        7 refused 9\n\
        8 refused 14\n\
        9 page 0:Nil/0 1:OwnWrite/0 owner 1 copies - t 0 idle\n\
        10 refused 16\n\
        11 page 0:OwnWrite/0 1:Nil/0 owner 0 copies - t 0 idle\n\
        12 refused 16\n",
    lines: 12,
    events: 7,
    sent: 1,
};

/// An owner whose page was read by another writes it again.
pub const OWNER_UPGRADES: Script = Script {
    name: "owner upgrades",
    input: b"sites 3 preset 1\n\
        load 1 0 0\n\
        deliver 0\n\
        deliver 1\n\
        deliver 2\n\
        deliver 3\n\
        load 2 0 0\n\
        deliver 4\n\
        deliver 5\n\
        deliver 6\n\
        deliver 7\n\
        store 0 0 0 3\n\
        deliver 8\n\
        deliver 9\n\
        deliver 10\n\
        deliver 11\n\
        deliver 12\n\
        deliver 13\n\
        store 0 0 0 3\n\
        deliver 14\n",
    text: b"1 ready\n\
        2 fault m0>0:Ask\n\
        3 took m1>0:Hand\n\
        4 took m2>1:Page\n\
        5 took m3>0:Confirm\n\
        6 took\n\
        7 fault m4>0:Ask\n\
        8 took m5>0:Hand\n\
        9 took m6>2:Page\n\
        10 took m7>0:Confirm\n\
        11 took\n\
        12 fault m8>0:Ask\n\
        13 took m9>1:Clear m10>2:Clear\n\
        14 took m11>0:Cleared\n\
        15 took m12>0:Cleared\n\
        16 took\n\
        17 took m13>0:Hand\n\
        18 took m14>0:Confirm\n\
        19 stored\n\
        20 took\n",
    lines: 20,
    events: 19,
    sent: 15,
};

/// A reader becomes the writer, and the old owner reads.
pub const READER_BECOMES_WRITER: Script = Script {
    name: "reader becomes writer",
    input: b"sites 2 preset 1\n\
        store 0 0 0 7\n\
        load 1 0 0\n\
        deliver 0\n\
        deliver 1\n\
        deliver 2\n\
        deliver 3\n\
        load 1 0 0\n\
        store 1 0 0 9\n\
        deliver 4\n\
        load 0 0 0\n\
        deliver 5\n\
        load 0 0 0\n\
        load 1 0 0\n\
        deliver 6\n\
        store 1 0 0 9\n\
        load 0 0 0\n\
        show 0 0\n\
        deliver 8\n\
        deliver 7\n\
        deliver 9\n\
        deliver 10\n\
        deliver 11\n\
        load 0 0 0\n\
        show 0 0\n",
    text: b"1 ready\n\
        2 stored\n\
        3 fault m0>0:Ask\n\
        4 took m1>0:Hand\n\
        5 took m2>1:Page\n\
        6 took m3>0:Confirm\n\
        7 took\n\
        8 byte 7\n\
        9 fault m4>0:Ask\n\
        10 took m5>0:Hand\n\
        11 byte 7\n\
        12 took m6>1:Page\n\
        13 fault m7>0:Ask\n\
        14 byte 7\n\
        15 took m8>0:Confirm\n\
        16 stored\n\
        17 waiting\n\
        18 page 0:Handed/2 1:OwnWrite/2 owner 0 copies 1 t 2 write 1\n\
        19 took\n\
        20 took m9>1:Hand\n\
        21 took m10>0:Page\n\
        22 took m11>0:Confirm\n\
        23 took\n\
        24 byte 9\n\
        25 page 0:Copy/3 1:OwnRead/3 owner 1 copies 0 t 3 idle\n",
    lines: 25,
    events: 22,
    sent: 12,
};

/// Requests wait at the manager while one is served; then two copies are cleared for a store.
pub const QUEUED_READS_THEN_TWO_CLEARS: Script = Script {
    name: "queued reads then two clears",
    input: b"sites 4 preset 1\n\
        store 0 0 0 5\n\
        load 1 0 0\n\
        load 2 0 0\n\
        load 3 0 0\n\
        deliver 0\n\
        deliver 1\n\
        deliver 2\n\
        deliver 3\n\
        deliver 4\n\
        deliver 5\n\
        deliver 6\n\
        deliver 7\n\
        deliver 8\n\
        deliver 9\n\
        deliver 10\n\
        deliver 11\n\
        store 3 0 0 6\n\
        deliver 12\n\
        deliver 14\n\
        repeat 13\n\
        deliver 13\n\
        deliver 16\n\
        deliver 17\n\
        deliver 15\n\
        deliver 18\n\
        deliver 19\n\
        store 3 0 0 6\n\
        deliver 20\n\
        show 0 0\n",
    text: b"1 ready\n\
        2 stored\n\
        3 fault m0>0:Ask\n\
        4 fault m1>0:Ask\n\
        5 fault m2>0:Ask\n\
        6 took m3>0:Hand\n\
        7 took\n\
        8 took\n\
        9 took m4>1:Page\n\
        10 took m5>0:Confirm\n\
        11 took m6>0:Hand\n\
        12 took m7>2:Page\n\
        13 took m8>0:Confirm\n\
        14 took m9>0:Hand\n\
        15 took m10>3:Page\n\
        16 took m11>0:Confirm\n\
        17 took\n\
        18 fault m12>0:Ask\n\
        19 took m13>1:Clear m14>2:Clear\n\
        20 took m15>0:Cleared\n\
        21 took m16>0:Cleared\n\
        22 took m17>0:Cleared\n\
        23 took\n\
        24 dropped\n\
        25 took m18>0:Hand\n\
        26 took m19>3:Page\n\
        27 took m20>0:Confirm\n\
        28 stored\n\
        29 took\n\
        30 page 0:Handed/4 1:Nil/4 2:Nil/4 3:OwnWrite/4 owner 3 copies - t 4 idle\n",
    lines: 30,
    events: 28,
    sent: 21,
};

/// What a site asked for is asked again in the order in which it was first asked.
pub const PENDING_ORDER: Script = Script {
    name: "pending order",
    input: b"sites 3 preset 4\n\
        load 2 0 0\n\
        load 2 0 12288\n\
        load 2 0 4096\n\
        deliver 0\n\
        deliver 3\n\
        deliver 4\n\
        tick 2\n\
        store 2 0 12288 1\n\
        load 2 0 12288\n\
        tick 2\n",
    text: b"1 ready\n\
        2 fault m0>0:Ask\n\
        3 fault m1>0:Ask\n\
        4 fault m2>1:Ask\n\
        5 took m3>0:Hand\n\
        6 took m4>2:Page\n\
        7 took m5>0:Confirm\n\
        8 took m6>0:Ask m7>1:Ask\n\
        9 fault m8>0:Ask\n\
        10 waiting\n\
        11 took m9>0:Ask m10>1:Ask\n",
    lines: 11,
    events: 10,
    sent: 11,
};

/// A site that restarted asks to read what it is given to write.
pub const READ_TO_ITSELF: Script = Script {
    name: "read to itself",
    input: b"sites 2 preset 1\n\
        store 1 0 0 1\n\
        restart 1\n\
        load 1 0 0\n\
        deliver 0\n\
        deliver 2\n\
        deliver 3\n\
        deliver 4\n\
        deliver 1\n\
        deliver 5\n\
        show 0 0\n\
        deliver 6\n\
        store 1 0 0 2\n\
        show 0 0\n",
    text: b"1 ready\n\
        2 fault m0>0:Ask\n\
        3 took\n\
        4 fault m1>0:Ask\n\
        5 took m2>0:Hand\n\
        6 took m3>1:Page\n\
        7 took m4>0:Confirm\n\
        8 took\n\
        9 took m5>1:Hand\n\
        10 took m6>0:Confirm\n\
        11 page 0:Handed/1 1:OwnWrite/2 owner 1 copies - t 2 read 1\n\
        12 took\n\
        13 stored\n\
        14 page 0:Handed/1 1:OwnWrite/2 owner 1 copies - t 2 idle\n",
    lines: 14,
    events: 11,
    sent: 7,
};
