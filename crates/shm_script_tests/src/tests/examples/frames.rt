//! `examples/frames.shm` is the same script, and `examples/frames.out` the same text.
use super::Example;

pub(super) const EXAMPLE: Example = Example {
    name: "frames",
    script: SCRIPT,
    text: TEXT,
};

pub(super) const SCRIPT: &[u8] = b"sites 2 preset 4 frames 1\n\
    store 0 0 0 5\n\
    load 1 0 0\n\
    deliver 0\n\
    deliver 1\n\
    deliver 2\n\
    deliver 3\n\
    load 1 0 0\n\
    load 1 0 8192\n\
    deliver 4\n\
    deliver 5\n\
    deliver 6\n\
    deliver 7\n\
    show 0 0\n\
    show 0 2\n\
    store 1 0 4096 1\n\
    show 0 2\n\
    store 0 0 0 6\n\
    deliver 8\n\
    deliver 9\n\
    deliver 10\n\
    deliver 11\n\
    store 0 0 0 6\n\
    deliver 12\n\
    show 0 0\n";

pub(super) const TEXT: &[u8] = b"1 ready\n\
    2 stored\n\
    3 fault m0>0:Ask\n\
    4 took m1>0:Hand\n\
    5 took m2>1:Page\n\
    6 took m3>0:Confirm\n\
    7 took\n\
    8 byte 5\n\
    9 fault m4>0:Ask\n\
    10 took m5>0:Hand\n\
    11 took m6>1:Page\n\
    12 took m7>0:Confirm\n\
    13 took\n\
    14 page 0:OwnRead/1 1:Nil/1 owner 0 copies 1 t 1 idle\n\
    15 page 0:OwnRead/1 1:Copy/1 owner 0 copies 1 t 1 idle\n\
    16 stored\n\
    17 page 0:OwnRead/1 1:Copy/1 owner 0 copies 1 t 1 idle\n\
    18 fault m8>0:Ask\n\
    19 took m9>1:Clear\n\
    20 took m10>0:Cleared\n\
    21 took m11>0:Hand\n\
    22 took m12>0:Confirm\n\
    23 stored\n\
    24 took\n\
    25 page 0:OwnWrite/2 1:Nil/2 owner 0 copies - t 2 idle\n";
