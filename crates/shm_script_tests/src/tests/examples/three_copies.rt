//! `examples/three-copies.shm` is the same script, and `examples/three-copies.out` the same text.
use super::Example;

pub(super) const EXAMPLE: Example = Example {
    name: "three-copies",
    script: SCRIPT,
    text: TEXT,
};

pub(super) const SCRIPT: &[u8] = b"sites 5 preset 1\n\
    store 0 0 0 1\n\
    load 1 0 0\n\
    load 2 0 0\n\
    load 3 0 0\n\
    deliver 0\n\
    deliver 1\n\
    deliver 2\n\
    deliver 3\n\
    deliver 4\n\
    deliver 5\n\
    deliver 6\n\
    deliver 7\n\
    deliver 8\n\
    deliver 9\n\
    deliver 10\n\
    deliver 11\n\
    show 0 0\n\
    store 4 0 0 2\n\
    deliver 12\n\
    show 0 0\n\
    deliver 14\n\
    deliver 13\n\
    deliver 16\n\
    deliver 17\n\
    load 2 0 0\n\
    load 3 0 0\n\
    load 0 0 0\n\
    show 0 0\n\
    deliver 15\n\
    deliver 18\n\
    deliver 19\n\
    load 0 0 0\n\
    deliver 20\n\
    show 0 0\n\
    deliver 21\n\
    store 4 0 0 2\n\
    deliver 22\n\
    deliver 23\n\
    deliver 24\n\
    load 2 0 0\n\
    deliver 25\n\
    show 0 0\n";

pub(super) const TEXT: &[u8] = b"1 ready\n\
    2 stored\n\
    3 fault m0>0:Ask\n\
    4 fault m1>0:Ask\n\
    5 fault m2>0:Ask\n\
    6 took m3>0:Hand\n\
    7 took\n\
    8 took\n\
    9 took m4>1:Page\n\
    10 took m5>0:Confirm\n\
    11 took m6>0:Hand\n\
    12 took m7>2:Page\n\
    13 took m8>0:Confirm\n\
    14 took m9>0:Hand\n\
    15 took m10>3:Page\n\
    16 took m11>0:Confirm\n\
    17 took\n\
    18 page 0:OwnRead/3 1:Copy/1 2:Copy/2 3:Copy/3 4:Nil/0 owner 0 copies 1,2,3 t 3 idle\n\
    19 fault m12>0:Ask\n\
    20 took m13>1:Clear m14>2:Clear m15>3:Clear\n\
    21 page 0:OwnRead/3 1:Copy/1 2:Copy/2 3:Copy/3 4:Nil/0 owner 0 copies 1,2,3 t 4 write 4\n\
    22 took m16>0:Cleared\n\
    23 took m17>0:Cleared\n\
    24 took\n\
    25 took\n\
    26 fault m18>0:Ask\n\
    27 byte 1\n\
    28 byte 1\n\
    29 page 0:OwnRead/3 1:Nil/4 2:Nil/4 3:Copy/3 4:Nil/0 owner 0 copies 1,2,3 t 4 write 4\n\
    30 took m19>0:Cleared\n\
    31 took\n\
    32 took m20>0:Hand\n\
    33 byte 1\n\
    34 took m21>4:Page\n\
    35 page 0:Handed/4 1:Nil/4 2:Nil/4 3:Nil/4 4:Nil/0 owner 0 copies 1,2,3 t 4 write 4\n\
    36 took m22>0:Confirm\n\
    37 stored\n\
    38 took m23>4:Hand\n\
    39 took m24>2:Page\n\
    40 took m25>0:Confirm\n\
    41 byte 2\n\
    42 took\n\
    43 page 0:Handed/4 1:Nil/4 2:Copy/5 3:Nil/4 4:OwnRead/5 owner 4 copies 2 t 5 idle\n";
