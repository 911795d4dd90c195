//! `examples/reader-becomes-writer.shm` is the same script, and `examples/reader-becomes-writer.out` the same text.
use super::Example;

pub(super) const EXAMPLE: Example = Example {
    name: "reader-becomes-writer",
    script: SCRIPT,
    text: TEXT,
};

pub(super) const SCRIPT: &[u8] = b"sites 3 preset 2\n\
    store 1 0 4096 5\n\
    load 0 0 4096\n\
    deliver 0\n\
    deliver 1\n\
    deliver 2\n\
    deliver 3\n\
    load 2 0 4096\n\
    deliver 4\n\
    deliver 5\n\
    deliver 6\n\
    deliver 7\n\
    show 0 1\n\
    store 0 0 4096 6\n\
    deliver 8\n\
    load 2 0 4096\n\
    deliver 9\n\
    deliver 10\n\
    load 1 0 4096\n\
    deliver 11\n\
    show 0 1\n\
    deliver 12\n\
    store 0 0 4096 6\n\
    load 0 0 4096\n\
    deliver 13\n\
    show 0 1\n";

pub(super) const TEXT: &[u8] = b"1 ready\n\
    2 stored\n\
    3 fault m0>1:Ask\n\
    4 took m1>1:Hand\n\
    5 took m2>0:Page\n\
    6 took m3>1:Confirm\n\
    7 took\n\
    8 fault m4>1:Ask\n\
    9 took m5>1:Hand\n\
    10 took m6>2:Page\n\
    11 took m7>1:Confirm\n\
    12 took\n\
    13 page 0:Copy/1 1:OwnRead/2 2:Copy/2 owner 1 copies 0,2 t 2 idle\n\
    14 fault m8>1:Ask\n\
    15 took m9>2:Clear\n\
    16 byte 5\n\
    17 took m10>1:Cleared\n\
    18 took m11>1:Hand\n\
    19 byte 5\n\
    20 took m12>0:Page\n\
    21 page 0:Copy/1 1:Handed/3 2:Nil/3 owner 1 copies 0,2 t 3 write 0\n\
    22 took m13>1:Confirm\n\
    23 stored\n\
    24 byte 6\n\
    25 took\n\
    26 page 0:OwnWrite/3 1:Handed/3 2:Nil/3 owner 0 copies - t 3 idle\n";
