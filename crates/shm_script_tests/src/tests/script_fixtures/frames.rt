//! Sites that hold few copies.

use super::Script;

/// A site of one frame forgets the copy that it had first.
pub const FRAMES: Script = Script {
    name: "frames",
    input: b"sites 2 preset 4 frames 1\n\
        store 0 0 0 5\n\
        load 1 0 0\n\
        deliver 0\n\
        deliver 1\n\
        deliver 2\n\
        deliver 3\n\
        load 1 0 8192\n\
        deliver 4\n\
        deliver 5\n\
        deliver 6\n\
        show 0 0\n\
        load 1 0 0\n\
        store 0 0 0 6\n\
        deliver 9\n\
        deliver 10\n\
        deliver 11\n\
        deliver 12\n\
        store 0 0 0 6\n\
        deliver 13\n\
        deliver 8\n\
        deliver 14\n\
        deliver 15\n\
        load 1 0 0\n",
    text: b"1 ready\n\
        2 stored\n\
        3 fault m0>0:Ask\n\
        4 took m1>0:Hand\n\
        5 took m2>1:Page\n\
        6 took m3>0:Confirm\n\
        7 took\n\
        8 fault m4>0:Ask\n\
        9 took m5>0:Hand\n\
        10 took m6>1:Page\n\
        11 took m7>0:Confirm\n\
        12 page 0:OwnRead/1 1:Nil/1 owner 0 copies 1 t 1 idle\n\
        13 fault m8>0:Ask\n\
        14 fault m9>0:Ask\n\
        15 took m10>1:Clear\n\
        16 took m11>0:Cleared\n\
        17 took m12>0:Hand\n\
        18 took m13>0:Confirm\n\
        19 stored\n\
        20 took\n\
        21 took m14>0:Hand\n\
        22 took m15>1:Page\n\
        23 took m16>0:Confirm\n\
        24 byte 6\n",
    lines: 24,
    events: 22,
    sent: 17,
};

/// A copy that comes again is the latest.
pub const COPY_AGAIN: Script = Script {
    name: "copy again",
    input: b"sites 2 preset 5 frames 2\n\
        load 1 0 0\n\
        restart 1\n\
        load 1 0 0\n\
        deliver 0\n\
        deliver 2\n\
        deliver 3\n\
        load 1 0 8192\n\
        deliver 5\n\
        deliver 6\n\
        deliver 7\n\
        deliver 1\n\
        deliver 4\n\
        deliver 9\n\
        deliver 10\n\
        load 1 0 16384\n\
        deliver 12\n\
        deliver 13\n\
        deliver 14\n\
        show 0 0\n\
        show 0 2\n\
        show 0 4\n",
    text: b"1 ready\n\
        2 fault m0>0:Ask\n\
        3 took\n\
        4 fault m1>0:Ask\n\
        5 took m2>0:Hand\n\
        6 took m3>1:Page\n\
        7 took m4>0:Confirm\n\
        8 fault m5>0:Ask\n\
        9 took m6>0:Hand\n\
        10 took m7>1:Page\n\
        11 took m8>0:Confirm\n\
        12 took\n\
        13 took m9>0:Hand\n\
        14 took m10>1:Page\n\
        15 took m11>0:Confirm\n\
        16 fault m12>0:Ask\n\
        17 took m13>0:Hand\n\
        18 took m14>1:Page\n\
        19 took m15>0:Confirm\n\
        20 page 0:OwnRead/2 1:Copy/2 owner 0 copies 1 t 2 read 1\n\
        21 page 0:OwnRead/1 1:Nil/1 owner 0 copies - t 1 read 1\n\
        22 page 0:OwnRead/1 1:Copy/1 owner 0 copies - t 1 read 1\n",
    lines: 22,
    events: 18,
    sent: 16,
};

/// A copy is forgotten for another, and does not come back with a late page.
pub const DROPPED_COPY: Script = Script {
    name: "dropped copy",
    input: b"sites 2 preset 3 frames 1\n\
        load 1 0 0\n\
        deliver 0\n\
        deliver 1\n\
        repeat 2\n\
        deliver 3\n\
        store 0 0 0 5\n\
        deliver 4\n\
        deliver 5\n\
        deliver 6\n\
        deliver 7\n\
        deliver 8\n\
        store 0 0 0 5\n\
        load 1 0 0\n\
        deliver 9\n\
        deliver 10\n\
        deliver 11\n\
        deliver 12\n\
        load 1 0 8192\n\
        deliver 13\n\
        deliver 14\n\
        deliver 15\n\
        show 0 0\n\
        deliver 2\n\
        load 1 0 0\n",
    text: b"1 ready\n\
        2 fault m0>0:Ask\n\
        3 took m1>0:Hand\n\
        4 took m2>1:Page\n\
        5 took m3>0:Confirm\n\
        6 took\n\
        7 fault m4>0:Ask\n\
        8 took m5>1:Clear\n\
        9 took m6>0:Cleared\n\
        10 took m7>0:Hand\n\
        11 took m8>0:Confirm\n\
        12 took\n\
        13 stored\n\
        14 fault m9>0:Ask\n\
        15 took m10>0:Hand\n\
        16 took m11>1:Page\n\
        17 took m12>0:Confirm\n\
        18 took\n\
        19 fault m13>0:Ask\n\
        20 took m14>0:Hand\n\
        21 took m15>1:Page\n\
        22 took m16>0:Confirm\n\
        23 page 0:OwnRead/3 1:Nil/3 owner 0 copies 1 t 3 idle\n\
        24 dropped\n\
        25 fault m17>0:Ask\n",
    lines: 25,
    events: 23,
    sent: 18,
};
