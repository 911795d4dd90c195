//! Calls on segments.

use super::Script;

/// A segment is made and attached twice.
pub const SEGMENT_CALLS: Script = Script {
    name: "segment calls",
    input: b"sites 1\n\
        get 0 0 0 0 1 600 -\n\
        attach 0 0 0 0 rw\n\
        deliver 0\n\
        deliver 1\n\
        attach 0 0 0 0 rw\n\
        deliver 2\n\
        deliver 3\n\
        store 0 0 4095 9\n\
        load 0 0 4096\n\
        attach 0 0 0 0 ro\n\
        deliver 4\n\
        deliver 5\n\
        store 0 1 4095 1\n\
        load 0 1 4095\n",
    text: b"1 ready\n\
        2 began 1 m0>0:Call\n\
        3 refused 8\n\
        4 took m1>0:Reply\n\
        5 replied 1 id 0\n\
        6 began 2 m2>0:Call\n\
        7 took m3>0:Reply\n\
        8 replied 2 attached 0\n\
        9 stored\n\
        10 refused 11\n\
        11 began 3 m4>0:Call\n\
        12 took m5>0:Reply\n\
        13 replied 3 attached 1\n\
        14 refused 10\n\
        15 byte 9\n",
    lines: 15,
    events: 14,
    sent: 6,
};

/// Calls that are refused before they are sent.
pub const ORDERS: Script = Script {
    name: "orders",
    input: b"sites 2 preset 1\n\
        stat 0 0 0 0\n\
        detach 0 9\n\
        attach 0 0 0 0 rw\n\
        deliver 0\n\
        deliver 1\n\
        detach 0 9\n\
        attach 0 0 0 0 ro\n\
        deliver 2\n\
        deliver 3\n\
        store 0 1 4294967295 1\n\
        store 0 2 4294967295 1\n\
        store 2 9 4294967295 1\n\
        load 0 1 4294967295\n\
        detach 2 9\n",
    text: b"1 ready\n\
        2 began 1 m0>0:Call\n\
        3 refused 8\n\
        4 refused 8\n\
        5 took m1>0:Reply\n\
        6 replied 1 stat key 0 uid 0 gid 0 cuid 0 cgid 0 mode 666 size 4096 nattch 2 live\n\
        7 refused 9\n\
        8 began 2 m2>0:Call\n\
        9 took m3>0:Reply\n\
        10 replied 2 attached 1\n\
        11 refused 10\n\
        12 refused 9\n\
        13 refused 14\n\
        14 refused 11\n\
        15 refused 14\n",
    lines: 15,
    events: 14,
    sent: 4,
};

/// Keys, sizes and flags.
pub const GET: Script = Script {
    name: "get",
    input: b"sites 1\n\
        get 0 1 1 5 300 711 c\n\
        deliver 0\n\
        deliver 1\n\
        get 0 1 1 5 301 600 -\n\
        deliver 2\n\
        deliver 3\n\
        get 0 1 1 5 300 600 x\n\
        deliver 4\n\
        deliver 5\n\
        get 0 2 2 5 300 111 -\n\
        deliver 6\n\
        deliver 7\n\
        get 0 2 2 5 300 011 cx\n\
        deliver 8\n\
        deliver 9\n\
        get 0 2 2 5 301 444 -\n\
        deliver 10\n\
        deliver 11\n\
        get 0 2 2 5 300 444 -\n\
        deliver 12\n\
        deliver 13\n\
        stat 0 1 1 0\n\
        deliver 14\n\
        deliver 15\n\
        stat 0 2 1 0\n\
        deliver 16\n\
        deliver 17\n\
        get 0 1 1 0 300 600 -\n\
        deliver 18\n\
        deliver 19\n\
        get 0 1 1 0 300 600 x\n\
        deliver 20\n\
        deliver 21\n\
        remove 0 2 1 0\n\
        deliver 22\n\
        deliver 23\n\
        remove 0 1 9 0\n\
        deliver 24\n\
        deliver 25\n\
        get 0 1 1 5 1 600 -\n\
        deliver 26\n\
        deliver 27\n\
        get 0 1 1 6 0 600 -\n\
        deliver 28\n\
        deliver 29\n\
        get 0 1 1 6 0 600 c\n\
        deliver 30\n\
        deliver 31\n\
        get 0 1 1 7 9 700 c\n\
        deliver 32\n\
        deliver 33\n\
        get 0 2 2 7 9 111 -\n\
        deliver 34\n\
        deliver 35\n",
    text: b"1 ready\n\
        2 began 1 m0>0:Call\n\
        3 took m1>0:Reply\n\
        4 replied 1 id 0\n\
        5 began 2 m2>0:Call\n\
        6 took m3>0:Reply\n\
        7 replied 2 error 4\n\
        8 began 3 m4>0:Call\n\
        9 took m5>0:Reply\n\
        10 replied 3 id 0\n\
        11 began 4 m6>0:Call\n\
        12 took m7>0:Reply\n\
        13 replied 4 id 0\n\
        14 began 5 m8>0:Call\n\
        15 took m9>0:Reply\n\
        16 replied 5 error 2\n\
        17 began 6 m10>0:Call\n\
        18 took m11>0:Reply\n\
        19 replied 6 error 4\n\
        20 began 7 m12>0:Call\n\
        21 took m13>0:Reply\n\
        22 replied 7 error 1\n\
        23 began 8 m14>0:Call\n\
        24 took m15>0:Reply\n\
        25 replied 8 stat key 5 uid 1 gid 1 cuid 1 cgid 1 mode 711 size 300 nattch 0 live\n\
        26 began 9 m16>0:Call\n\
        27 took m17>0:Reply\n\
        28 replied 9 error 1\n\
        29 began 10 m18>0:Call\n\
        30 took m19>0:Reply\n\
        31 replied 10 id 1\n\
        32 began 11 m20>0:Call\n\
        33 took m21>0:Reply\n\
        34 replied 11 id 2\n\
        35 began 12 m22>0:Call\n\
        36 took m23>0:Reply\n\
        37 replied 12 error 7\n\
        38 began 13 m24>0:Call\n\
        39 took m25>0:Reply m26>0:Purge\n\
        40 replied 13 ok\n\
        41 began 14 m27>0:Call\n\
        42 took m28>0:Purged\n\
        43 took m29>0:Reply\n\
        44 refused 8\n\
        45 took\n\
        46 replied 14 error 5\n\
        47 began 15 m30>0:Call\n\
        48 took m31>0:Reply\n\
        49 replied 15 error 4\n\
        50 began 16 m32>0:Call\n\
        51 took m33>0:Reply\n\
        52 replied 16 id 3\n\
        53 began 17 m34>0:Call\n\
        54 took m35>0:Reply\n\
        55 replied 17 id 3\n",
    lines: 55,
    events: 54,
    sent: 36,
};

/// One class of permissions alone counts.
pub const CLASSES: Script = Script {
    name: "classes",
    input: b"sites 1\n\
        get 0 1 1 5 10 077 c\n\
        deliver 0\n\
        deliver 1\n\
        attach 0 1 1 0 ro\n\
        deliver 2\n\
        deliver 3\n\
        attach 0 2 1 0 rw\n\
        deliver 4\n\
        deliver 5\n\
        attach 0 2 2 0 rw\n\
        deliver 6\n\
        deliver 7\n\
        set 0 1 1 0 7 8 407\n\
        deliver 8\n\
        deliver 9\n\
        attach 0 1 1 0 ro\n\
        deliver 10\n\
        deliver 11\n\
        attach 0 1 1 0 rw\n\
        deliver 12\n\
        deliver 13\n\
        attach 0 7 1 0 ro\n\
        deliver 14\n\
        deliver 15\n\
        attach 0 9 1 0 ro\n\
        deliver 16\n\
        deliver 17\n\
        attach 0 9 8 0 ro\n\
        deliver 18\n\
        deliver 19\n\
        attach 0 9 9 0 rw\n\
        deliver 20\n\
        deliver 21\n\
        stat 0 9 8 0\n\
        deliver 22\n\
        deliver 23\n\
        set 0 9 1 0 1 1 600\n\
        deliver 24\n\
        deliver 25\n\
        remove 0 9 1 0\n\
        deliver 26\n\
        deliver 27\n",
    text: b"1 ready\n\
        2 began 1 m0>0:Call\n\
        3 took m1>0:Reply\n\
        4 replied 1 id 0\n\
        5 began 2 m2>0:Call\n\
        6 took m3>0:Reply\n\
        7 replied 2 error 1\n\
        8 began 3 m4>0:Call\n\
        9 took m5>0:Reply\n\
        10 replied 3 attached 0\n\
        11 began 4 m6>0:Call\n\
        12 took m7>0:Reply\n\
        13 replied 4 attached 1\n\
        14 began 5 m8>0:Call\n\
        15 took m9>0:Reply\n\
        16 replied 5 ok\n\
        17 began 6 m10>0:Call\n\
        18 took m11>0:Reply\n\
        19 replied 6 attached 2\n\
        20 began 7 m12>0:Call\n\
        21 took m13>0:Reply\n\
        22 replied 7 error 1\n\
        23 began 8 m14>0:Call\n\
        24 took m15>0:Reply\n\
        25 replied 8 attached 3\n\
        26 began 9 m16>0:Call\n\
        27 took m17>0:Reply\n\
        28 replied 9 error 1\n\
        29 began 10 m18>0:Call\n\
        30 took m19>0:Reply\n\
        31 replied 10 error 1\n\
        32 began 11 m20>0:Call\n\
        33 took m21>0:Reply\n\
        34 replied 11 attached 4\n\
        35 began 12 m22>0:Call\n\
        36 took m23>0:Reply\n\
        37 replied 12 error 1\n\
        38 began 13 m24>0:Call\n\
        39 took m25>0:Reply\n\
        40 replied 13 error 7\n\
        41 began 14 m26>0:Call\n\
        42 took m27>0:Reply\n\
        43 replied 14 error 7\n",
    lines: 43,
    events: 42,
    sent: 28,
};

/// Identifiers that no segment has.
pub const IDENTIFIERS: Script = Script {
    name: "identifiers",
    input: b"sites 3 preset 1\n\
        stat 0 0 0 4294967295\n\
        deliver 0\n\
        deliver 1\n\
        attach 1 0 0 196608 rw\n\
        deliver 2\n\
        deliver 3\n\
        remove 2 0 0 196607\n\
        deliver 4\n\
        deliver 5\n\
        stat 0 0 0 3\n\
        deliver 6\n\
        deliver 7\n\
        get 1 0 0 4294967295 1 600 c\n\
        deliver 8\n\
        deliver 9\n\
        get 1 0 0 0 1 600 -\n\
        deliver 10\n\
        deliver 11\n\
        get 1 0 0 4294967295 1 600 -\n\
        deliver 12\n\
        deliver 13\n",
    text: b"1 ready\n\
        2 began 1 m0>0:Call\n\
        3 took m1>0:Reply\n\
        4 replied 1 error 4\n\
        5 began 1 m2>0:Call\n\
        6 took m3>1:Reply\n\
        7 replied 1 error 4\n\
        8 began 1 m4>2:Call\n\
        9 took m5>2:Reply\n\
        10 replied 1 error 4\n\
        11 began 2 m6>0:Call\n\
        12 took m7>0:Reply\n\
        13 replied 2 error 4\n\
        14 began 2 m8>0:Call\n\
        15 took m9>1:Reply\n\
        16 replied 2 id 3\n\
        17 began 3 m10>1:Call\n\
        18 took m11>1:Reply\n\
        19 replied 3 id 1\n\
        20 began 4 m12>0:Call\n\
        21 took m13>1:Reply\n\
        22 replied 4 id 3\n",
    lines: 22,
    events: 21,
    sent: 14,
};

/// A segment that was removed while it was attached.
pub const MARKED: Script = Script {
    name: "marked",
    input: b"sites 1\n\
        get 0 1 1 5 10 606 c\n\
        deliver 0\n\
        deliver 1\n\
        attach 0 1 1 0 rw\n\
        deliver 2\n\
        deliver 3\n\
        remove 0 1 1 0\n\
        deliver 4\n\
        deliver 5\n\
        remove 0 1 1 0\n\
        deliver 6\n\
        deliver 7\n\
        get 0 1 1 5 10 600 c\n\
        deliver 8\n\
        deliver 9\n\
        set 0 1 1 0 3 3 640\n\
        deliver 10\n\
        deliver 11\n\
        stat 0 1 1 0\n\
        deliver 12\n\
        deliver 13\n\
        stat 0 3 7 0\n\
        deliver 14\n\
        deliver 15\n\
        remove 0 3 7 0\n\
        deliver 16\n\
        deliver 17\n\
        attach 0 9 3 0 rw\n\
        deliver 18\n\
        deliver 19\n\
        attach 0 9 3 0 ro\n\
        deliver 20\n\
        deliver 21\n\
        detach 0 0\n\
        deliver 22\n\
        deliver 23\n\
        stat 0 1 1 0\n\
        deliver 24\n\
        deliver 25\n\
        detach 0 1\n\
        deliver 26\n\
        deliver 27\n\
        stat 0 1 1 0\n\
        deliver 28\n\
        deliver 29\n\
        stat 0 9 9 0\n\
        deliver 30\n\
        deliver 31\n\
        remove 0 1 1 1\n\
        deliver 32\n\
        deliver 33\n\
        attach 0 1 1 1 ro\n\
        deliver 34\n\
        deliver 35\n",
    text: b"1 ready\n\
        2 began 1 m0>0:Call\n\
        3 took m1>0:Reply\n\
        4 replied 1 id 0\n\
        5 began 2 m2>0:Call\n\
        6 took m3>0:Reply\n\
        7 replied 2 attached 0\n\
        8 began 3 m4>0:Call\n\
        9 took m5>0:Reply\n\
        10 replied 3 ok\n\
        11 began 4 m6>0:Call\n\
        12 took m7>0:Reply\n\
        13 replied 4 ok\n\
        14 began 5 m8>0:Call\n\
        15 took m9>0:Reply\n\
        16 replied 5 id 1\n\
        17 began 6 m10>0:Call\n\
        18 took m11>0:Reply\n\
        19 replied 6 ok\n\
        20 began 7 m12>0:Call\n\
        21 took m13>0:Reply\n\
        22 replied 7 stat key 0 uid 3 gid 3 cuid 1 cgid 1 mode 640 size 10 nattch 1 marked\n\
        23 began 8 m14>0:Call\n\
        24 took m15>0:Reply\n\
        25 replied 8 stat key 0 uid 3 gid 3 cuid 1 cgid 1 mode 640 size 10 nattch 1 marked\n\
        26 began 9 m16>0:Call\n\
        27 took m17>0:Reply\n\
        28 replied 9 ok\n\
        29 began 10 m18>0:Call\n\
        30 took m19>0:Reply\n\
        31 replied 10 error 1\n\
        32 began 11 m20>0:Call\n\
        33 took m21>0:Reply\n\
        34 replied 11 attached 1\n\
        35 began 12 m22>0:Call\n\
        36 took m23>0:Reply\n\
        37 replied 12 ok\n\
        38 began 13 m24>0:Call\n\
        39 took m25>0:Reply\n\
        40 replied 13 stat key 0 uid 3 gid 3 cuid 1 cgid 1 mode 640 size 10 nattch 1 marked\n\
        41 began 14 m26>0:Call\n\
        42 took m27>0:Reply m28>0:Purge\n\
        43 replied 14 ok\n\
        44 began 15 m29>0:Call\n\
        45 took m30>0:Purged\n\
        46 took m31>0:Reply\n\
        47 refused 8\n\
        48 took\n\
        49 replied 15 error 3\n\
        50 began 16 m32>0:Call\n\
        51 took m33>0:Reply m34>0:Purge\n\
        52 replied 16 ok\n\
        53 began 17 m35>0:Call\n\
        54 took m36>0:Purged\n\
        55 took m37>0:Reply\n",
    lines: 55,
    events: 54,
    sent: 38,
};
