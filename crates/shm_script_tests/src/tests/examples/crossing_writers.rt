//! `examples/crossing-writers.shm` is the same script, and `examples/crossing-writers.out` the same text.
use super::Example;

pub(super) const EXAMPLE: Example = Example {
    name: "crossing-writers",
    script: SCRIPT,
    text: TEXT,
};

pub(super) const SCRIPT: &[u8] = b"sites 3 preset 1\n\
    store 0 0 2 9\n\
    load 1 0 2\n\
    load 2 0 2\n\
    deliver 0\n\
    deliver 1\n\
    deliver 2\n\
    deliver 3\n\
    deliver 4\n\
    deliver 5\n\
    deliver 6\n\
    deliver 7\n\
    load 1 0 2\n\
    load 2 0 2\n\
    show 0 0\n\
    store 1 0 0 11\n\
    store 2 0 1 22\n\
    deliver 9\n\
    deliver 10\n\
    load 1 0 2\n\
    store 1 0 0 11\n\
    deliver 8\n\
    show 0 0\n\
    deliver 11\n\
    deliver 12\n\
    deliver 13\n\
    store 2 0 1 22\n\
    deliver 14\n\
    deliver 15\n\
    load 2 0 1\n\
    deliver 16\n\
    store 1 0 0 11\n\
    deliver 18\n\
    load 1 0 1\n\
    load 1 0 2\n\
    show 0 0\n\
    deliver 17\n\
    deliver 19\n\
    deliver 20\n\
    deliver 21\n\
    load 2 0 0\n\
    load 2 0 1\n\
    show 0 0\n";

pub(super) const TEXT: &[u8] = b"1 ready\n\
    2 stored\n\
    3 fault m0>0:Ask\n\
    4 fault m1>0:Ask\n\
    5 took m2>0:Hand\n\
    6 took\n\
    7 took m3>1:Page\n\
    8 took m4>0:Confirm\n\
    9 took m5>0:Hand\n\
    10 took m6>2:Page\n\
    11 took m7>0:Confirm\n\
    12 took\n\
    13 byte 9\n\
    14 byte 9\n\
    15 page 0:OwnRead/2 1:Copy/1 2:Copy/2 owner 0 copies 1,2 t 2 idle\n\
    16 fault m8>0:Ask\n\
    17 fault m9>0:Ask\n\
    18 took m10>1:Clear\n\
    19 took m11>0:Cleared\n\
    20 waiting\n\
    21 waiting\n\
    22 took\n\
    23 page 0:OwnRead/2 1:Nil/3 2:Copy/2 owner 0 copies 1,2 t 3 write 2\n\
    24 took m12>0:Hand\n\
    25 took m13>2:Page\n\
    26 took m14>0:Confirm\n\
    27 stored\n\
    28 took m15>2:Hand\n\
    29 took m16>1:Page\n\
    30 fault m17>0:Ask\n\
    31 took m18>0:Confirm\n\
    32 stored\n\
    33 took\n\
    34 byte 22\n\
    35 byte 9\n\
    36 page 0:Handed/3 1:OwnWrite/4 2:Handed/4 owner 1 copies - t 4 idle\n\
    37 took m19>1:Hand\n\
    38 took m20>2:Page\n\
    39 took m21>0:Confirm\n\
    40 took\n\
    41 byte 11\n\
    42 byte 22\n\
    43 page 0:Handed/3 1:OwnRead/5 2:Copy/5 owner 1 copies 2 t 5 idle\n";
