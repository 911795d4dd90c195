//! Segments that are destroyed, and their pages.

use super::Script;

/// A segment is made, attached, removed and purged.
pub const REMOVAL: Script = Script {
    name: "removal",
    input: b"sites 2\n\
        get 0 0 0 3 256 600 c\n\
        deliver 0\n\
        deliver 1\n\
        attach 0 0 0 1 rw\n\
        deliver 2\n\
        deliver 3\n\
        attach 1 0 0 1 rw\n\
        deliver 4\n\
        deliver 5\n\
        remove 0 0 0 1\n\
        deliver 6\n\
        deliver 7\n\
        stat 0 0 0 1\n\
        deliver 8\n\
        deliver 9\n\
        get 0 0 0 3 256 600 c\n\
        deliver 10\n\
        deliver 11\n\
        attach 0 0 0 1 ro\n\
        deliver 12\n\
        deliver 13\n\
        detach 0 0\n\
        deliver 14\n\
        deliver 15\n\
        detach 0 1\n\
        repeat 16\n\
        repeat 16\n\
        deliver 16\n\
        deliver 17\n\
        deliver 18\n\
        deliver 19\n\
        stat 1 0 0 1\n\
        deliver 20\n\
        deliver 21\n\
        detach 1 0\n\
        repeat 22\n\
        repeat 22\n\
        deliver 22\n\
        deliver 23\n\
        deliver 26\n\
        deliver 27\n\
        attach 0 0 0 1 ro\n\
        deliver 28\n\
        deliver 29\n\
        stat 0 0 0 5\n\
        deliver 30\n\
        deliver 31\n\
        get 0 0 0 3 256 600 -\n\
        deliver 32\n\
        deliver 33\n",
    text: b"1 ready\n\
        2 began 1 m0>1:Call\n\
        3 took m1>0:Reply\n\
        4 replied 1 id 1\n\
        5 began 2 m2>1:Call\n\
        6 took m3>0:Reply\n\
        7 replied 2 attached 0\n\
        8 began 1 m4>1:Call\n\
        9 took m5>1:Reply\n\
        10 replied 1 attached 0\n\
        11 began 3 m6>1:Call\n\
        12 took m7>0:Reply\n\
        13 replied 3 ok\n\
        14 began 4 m8>1:Call\n\
        15 took m9>0:Reply\n\
        16 replied 4 stat key 0 uid 0 gid 0 cuid 0 cgid 0 mode 600 size 256 nattch 2 marked\n\
        17 began 5 m10>1:Call\n\
        18 took m11>0:Reply\n\
        19 replied 5 id 3\n\
        20 began 6 m12>1:Call\n\
        21 took m13>0:Reply\n\
        22 replied 6 attached 1\n\
        23 began 7 m14>1:Call\n\
        24 took m15>0:Reply\n\
        25 replied 7 ok\n\
        26 began 8 m16>1:Call\n\
        27 took m17>0:Reply\n\
        28 took m18>0:Reply\n\
        29 took m19>0:Reply\n\
        30 replied 8 ok\n\
        31 dropped\n\
        32 dropped\n\
        33 began 2 m20>1:Call\n\
        34 took m21>1:Reply\n\
        35 replied 2 stat key 0 uid 0 gid 0 cuid 0 cgid 0 mode 600 size 256 nattch 1 marked\n\
        36 began 3 m22>1:Call\n\
        37 took m23>1:Reply m24>0:Purge m25>1:Purge\n\
        38 took m26>1:Reply\n\
        39 took m27>1:Reply\n\
        40 replied 3 ok\n\
        41 dropped\n\
        42 dropped\n\
        43 began 9 m28>1:Call\n\
        44 took m29>0:Reply\n\
        45 replied 9 error 3\n\
        46 began 10 m30>1:Call\n\
        47 took m31>0:Reply\n\
        48 replied 10 error 4\n\
        49 began 11 m32>1:Call\n\
        50 took m33>0:Reply\n\
        51 replied 11 id 3\n",
    lines: 51,
    events: 50,
    sent: 34,
};

/// A purge is sent again until it is answered.
pub const PURGE_RESENT: Script = Script {
    name: "purge resent",
    input: b"sites 1 preset 1\n\
        remove 0 0 0 0\n\
        deliver 0\n\
        deliver 1\n\
        detach 0 0\n\
        repeat 2\n\
        deliver 2\n\
        deliver 3\n\
        tick 0\n\
        deliver 4\n\
        deliver 6\n\
        deliver 7\n\
        deliver 8\n\
        tick 0\n\
        show 0 0\n",
    text: b"1 ready\n\
        2 began 1 m0>0:Call\n\
        3 took m1>0:Reply\n\
        4 replied 1 ok\n\
        5 began 2 m2>0:Call\n\
        6 took m3>0:Reply m4>0:Purge\n\
        7 took m5>0:Reply\n\
        8 replied 2 ok\n\
        9 took m6>0:Purge\n\
        10 took m7>0:Purged\n\
        11 took m8>0:Purged\n\
        12 took\n\
        13 dropped\n\
        14 took\n\
        15 page 0:Purged/0 purged\n",
    lines: 15,
    events: 13,
    sent: 9,
};

/// A page that comes after its segment was purged.
pub const PURGE_AND_STALE_PAGE: Script = Script {
    name: "purge and stale page",
    input: b"sites 2 preset 1\n\
        store 1 0 0 4\n\
        deliver 0\n\
        deliver 1\n\
        remove 0 0 0 0\n\
        deliver 3\n\
        deliver 4\n\
        detach 0 0\n\
        deliver 5\n\
        deliver 6\n\
        detach 1 0\n\
        deliver 7\n\
        deliver 10\n\
        restart 1\n\
        deliver 2\n\
        deliver 8\n\
        show 0 0\n",
    text: b"1 ready\n\
        2 fault m0>0:Ask\n\
        3 took m1>0:Hand\n\
        4 took m2>1:Page\n\
        5 began 1 m3>0:Call\n\
        6 took m4>0:Reply\n\
        7 replied 1 ok\n\
        8 began 2 m5>0:Call\n\
        9 took m6>0:Reply\n\
        10 replied 2 ok\n\
        11 began 1 m7>0:Call\n\
        12 took m8>1:Reply m9>0:Purge m10>1:Purge\n\
        13 took m11>0:Purged\n\
        14 took\n\
        15 dropped\n\
        16 replied 1 ok\n\
        17 page 0:Handed/1 1:Purged/0 owner 0 copies - t 1 write 1\n",
    lines: 17,
    events: 15,
    sent: 12,
};

/// A purge takes what is pending, running and outstanding for the segment.
pub const PURGE: Script = Script {
    name: "purge",
    input: b"sites 2\n\
        get 0 0 0 0 1 666 -\n\
        deliver 0\n\
        deliver 1\n\
        get 0 0 0 2 1 666 c\n\
        deliver 2\n\
        deliver 3\n\
        get 0 0 0 4 1 666 c\n\
        deliver 4\n\
        deliver 5\n\
        attach 1 0 0 0 rw\n\
        deliver 6\n\
        deliver 7\n\
        attach 1 0 0 2 rw\n\
        deliver 8\n\
        deliver 9\n\
        attach 1 0 0 4 rw\n\
        deliver 10\n\
        deliver 11\n\
        load 1 0 0\n\
        load 1 1 0\n\
        load 1 2 0\n\
        repeat 12\n\
        repeat 13\n\
        repeat 14\n\
        tick 0\n\
        tick 1\n\
        remove 1 0 0 0\n\
        deliver 24\n\
        deliver 25\n\
        detach 1 0\n\
        repeat 26\n\
        tick 0\n\
        deliver 28\n\
        deliver 29\n\
        deliver 33\n\
        tick 0\n\
        tick 1\n\
        repeat 12\n\
        deliver 15\n\
        show 0 0\n\
        show 0 255\n\
        show 2 0\n\
        deliver 26\n\
        deliver 27\n\
        stat 0 0 0 0\n\
        restart 0\n\
        tick 0\n\
        show 0 0\n",
    text: b"1 ready\n\
        2 began 1 m0>0:Call\n\
        3 took m1>0:Reply\n\
        4 replied 1 id 0\n\
        5 began 2 m2>0:Call\n\
        6 took m3>0:Reply\n\
        7 replied 2 id 2\n\
        8 began 3 m4>0:Call\n\
        9 took m5>0:Reply\n\
        10 replied 3 id 4\n\
        11 began 1 m6>0:Call\n\
        12 took m7>1:Reply\n\
        13 replied 1 attached 0\n\
        14 began 2 m8>0:Call\n\
        15 took m9>1:Reply\n\
        16 replied 2 attached 1\n\
        17 began 3 m10>0:Call\n\
        18 took m11>1:Reply\n\
        19 replied 3 attached 2\n\
        20 fault m12>0:Ask\n\
        21 fault m13>0:Ask\n\
        22 fault m14>0:Ask\n\
        23 took m15>0:Hand\n\
        24 took m16>0:Hand\n\
        25 took m17>0:Hand\n\
        26 took m18>0:Hand m19>0:Hand m20>0:Hand\n\
        27 took m21>0:Ask m22>0:Ask m23>0:Ask\n\
        28 began 4 m24>0:Call\n\
        29 took m25>1:Reply\n\
        30 replied 4 ok\n\
        31 began 5 m26>0:Call\n\
        32 took m27>1:Reply m28>0:Purge m29>1:Purge\n\
        33 took m30>0:Hand m31>0:Hand m32>0:Hand m33>0:Purge m34>1:Purge\n\
        34 took m35>0:Purged\n\
        35 took m36>0:Purged\n\
        36 took m37>0:Purged\n\
        37 took m38>0:Hand m39>0:Hand m40>0:Purge m41>1:Purge\n\
        38 took m42>0:Ask m43>0:Ask m44>0:Call\n\
        39 dropped\n\
        40 dropped\n\
        41 page 0:Purged/0 1:Purged/0 purged\n\
        42 page 0:Purged/0 1:Purged/0 purged\n\
        43 page 0:OwnWrite/0 1:Nil/0 owner 0 copies - t 1 read 1\n\
        44 took m45>1:Reply\n\
        45 replied 5 ok\n\
        46 began 4 m46>0:Call\n\
        47 took\n\
        48 took m47>0:Hand m48>0:Hand m49>0:Call m50>0:Purge m51>1:Purge\n\
        49 page 0:Purged/0 1:Purged/0 purged\n",
    lines: 49,
    events: 44,
    sent: 52,
};

/// What is left after a purge is sent again in its old order.
pub const PURGE_ORDER: Script = Script {
    name: "purge order",
    input: b"sites 2\n\
        get 0 0 0 0 1 666 -\n\
        deliver 0\n\
        deliver 1\n\
        get 0 0 0 2 1 666 c\n\
        deliver 2\n\
        deliver 3\n\
        get 0 0 0 4 1 666 c\n\
        deliver 4\n\
        deliver 5\n\
        attach 1 0 0 0 rw\n\
        deliver 6\n\
        deliver 7\n\
        attach 1 0 0 2 rw\n\
        deliver 8\n\
        deliver 9\n\
        attach 1 0 0 4 rw\n\
        deliver 10\n\
        deliver 11\n\
        load 1 0 0\n\
        repeat 12\n\
        store 1 2 0 1\n\
        restart 1\n\
        load 1 2 0\n\
        deliver 14\n\
        deliver 16\n\
        deliver 17\n\
        deliver 18\n\
        deliver 15\n\
        load 1 1 0\n\
        deliver 20\n\
        tick 0\n\
        remove 1 0 0 0\n\
        deliver 25\n\
        deliver 26\n\
        detach 1 0\n\
        deliver 27\n\
        deliver 29\n\
        tick 0\n",
    text: b"1 ready\n\
        2 began 1 m0>0:Call\n\
        3 took m1>0:Reply\n\
        4 replied 1 id 0\n\
        5 began 2 m2>0:Call\n\
        6 took m3>0:Reply\n\
        7 replied 2 id 2\n\
        8 began 3 m4>0:Call\n\
        9 took m5>0:Reply\n\
        10 replied 3 id 4\n\
        11 began 1 m6>0:Call\n\
        12 took m7>1:Reply\n\
        13 replied 1 attached 0\n\
        14 began 2 m8>0:Call\n\
        15 took m9>1:Reply\n\
        16 replied 2 attached 1\n\
        17 began 3 m10>0:Call\n\
        18 took m11>1:Reply\n\
        19 replied 3 attached 2\n\
        20 fault m12>0:Ask\n\
        21 took m13>0:Hand\n\
        22 fault m14>0:Ask\n\
        23 took\n\
        24 fault m15>0:Ask\n\
        25 took m16>0:Hand\n\
        26 took m17>1:Page\n\
        27 took m18>0:Confirm\n\
        28 took\n\
        29 took m19>1:Hand\n\
        30 fault m20>0:Ask\n\
        31 took m21>0:Hand\n\
        32 took m22>0:Hand m23>1:Hand m24>0:Hand\n\
        33 began 4 m25>0:Call\n\
        34 took m26>1:Reply\n\
        35 replied 4 ok\n\
        36 began 5 m27>0:Call\n\
        37 took m28>1:Reply m29>0:Purge m30>1:Purge\n\
        38 took m31>0:Purged\n\
        39 took m32>1:Hand m33>0:Hand m34>0:Purge m35>1:Purge\n",
    lines: 39,
    events: 38,
    sent: 36,
};
