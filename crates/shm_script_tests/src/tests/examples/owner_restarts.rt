//! `examples/owner-restarts.shm` is the same script, and `examples/owner-restarts.out` the same text.
use super::Example;

pub(super) const EXAMPLE: Example = Example {
    name: "owner-restarts",
    script: SCRIPT,
    text: TEXT,
};

pub(super) const SCRIPT: &[u8] = b"sites 3 preset 1\n\
    store 1 0 0 5\n\
    deliver 0\n\
    deliver 1\n\
    deliver 2\n\
    deliver 3\n\
    store 1 0 0 5\n\
    restart 1\n\
    show 0 0\n\
    load 1 0 0\n\
    store 2 0 4 6\n\
    deliver 4\n\
    deliver 5\n\
    show 0 0\n\
    lose 6\n\
    restart 1\n\
    show 0 0\n\
    load 1 0 0\n\
    tick 0\n\
    deliver 8\n\
    restart 2\n\
    deliver 9\n\
    store 2 0 4 6\n\
    load 2 0 0\n\
    deliver 7\n\
    deliver 10\n\
    deliver 11\n\
    deliver 12\n\
    load 1 0 0\n\
    load 1 0 4\n\
    deliver 13\n\
    show 0 0\n";

pub(super) const TEXT: &[u8] = b"1 ready\n\
    2 fault m0>0:Ask\n\
    3 took m1>0:Hand\n\
    4 took m2>1:Page\n\
    5 took m3>0:Confirm\n\
    6 took\n\
    7 stored\n\
    8 took\n\
    9 page 0:Handed/1 1:OwnWrite/1 2:Nil/0 owner 1 copies - t 1 idle\n\
    10 byte 5\n\
    11 fault m4>0:Ask\n\
    12 took m5>1:Hand\n\
    13 took m6>2:Page\n\
    14 page 0:Handed/1 1:Handed/2 2:Nil/0 owner 1 copies - t 2 write 2\n\
    15 took\n\
    16 took\n\
    17 page 0:Handed/1 1:Handed/2 2:Nil/0 owner 1 copies - t 2 write 2\n\
    18 fault m7>0:Ask\n\
    19 took m8>1:Hand\n\
    20 took m9>2:Page\n\
    21 took\n\
    22 took m10>0:Confirm\n\
    23 stored\n\
    24 byte 5\n\
    25 took\n\
    26 took m11>2:Hand\n\
    27 took m12>1:Page\n\
    28 took m13>0:Confirm\n\
    29 byte 5\n\
    30 byte 6\n\
    31 took\n\
    32 page 0:Handed/1 1:Copy/3 2:OwnRead/3 owner 2 copies 1 t 3 idle\n";
