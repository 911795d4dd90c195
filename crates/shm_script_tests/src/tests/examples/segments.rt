//! `examples/segments.shm` is the same script, and `examples/segments.out` the same text.
use super::Example;

pub(super) const EXAMPLE: Example = Example {
    name: "segments",
    script: SCRIPT,
    text: TEXT,
};

pub(super) const SCRIPT: &[u8] = b"sites 2\n\
    get 0 10 20 5 5000 640 c\n\
    deliver 0\n\
    deliver 1\n\
    attach 0 10 20 1 rw\n\
    deliver 2\n\
    deliver 3\n\
    store 0 0 4096 7\n\
    load 0 0 8191\n\
    stat 0 10 20 1\n\
    deliver 4\n\
    deliver 5\n\
    remove 0 10 20 1\n\
    deliver 6\n\
    deliver 7\n\
    stat 0 10 20 1\n\
    deliver 8\n\
    deliver 9\n\
    detach 0 0\n\
    load 0 0 4096\n\
    deliver 10\n\
    deliver 11\n\
    deliver 12\n\
    deliver 13\n\
    deliver 14\n\
    deliver 15\n\
    show 1 1\n\
    stat 0 10 20 1\n\
    deliver 16\n\
    deliver 17\n";

pub(super) const TEXT: &[u8] = b"1 ready\n\
    2 began 1 m0>1:Call\n\
    3 took m1>0:Reply\n\
    4 replied 1 id 1\n\
    5 began 2 m2>1:Call\n\
    6 took m3>0:Reply\n\
    7 replied 2 attached 0\n\
    8 stored\n\
    9 byte 0\n\
    10 began 3 m4>1:Call\n\
    11 took m5>0:Reply\n\
    12 replied 3 stat key 5 uid 10 gid 20 cuid 10 cgid 20 mode 640 size 5000 nattch 1 live\n\
    13 began 4 m6>1:Call\n\
    14 took m7>0:Reply\n\
    15 replied 4 ok\n\
    16 began 5 m8>1:Call\n\
    17 took m9>0:Reply\n\
    18 replied 5 stat key 0 uid 10 gid 20 cuid 10 cgid 20 mode 640 size 5000 nattch 1 marked\n\
    19 began 6 m10>1:Call\n\
    20 refused 9\n\
    21 took m11>0:Reply m12>0:Purge m13>1:Purge\n\
    22 replied 6 ok\n\
    23 took m14>1:Purged\n\
    24 took m15>1:Purged\n\
    25 took\n\
    26 took\n\
    27 page 0:Purged/0 1:Purged/0 purged\n\
    28 began 7 m16>1:Call\n\
    29 took m17>0:Reply\n\
    30 replied 7 error 3\n";
