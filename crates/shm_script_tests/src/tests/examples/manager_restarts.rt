//! `examples/manager-restarts.shm` is the same script, and `examples/manager-restarts.out` the same text.
use super::Example;

pub(super) const EXAMPLE: Example = Example {
    name: "manager-restarts",
    script: SCRIPT,
    text: TEXT,
};

pub(super) const SCRIPT: &[u8] = b"sites 3 preset 1\n\
    load 1 0 0\n\
    load 2 0 0\n\
    deliver 0\n\
    deliver 1\n\
    deliver 2\n\
    deliver 3\n\
    deliver 4\n\
    deliver 5\n\
    deliver 6\n\
    deliver 7\n\
    store 0 0 0 3\n\
    deliver 8\n\
    deliver 9\n\
    deliver 11\n\
    tick 0\n\
    show 0 0\n\
    restart 0\n\
    show 0 0\n\
    tick 0\n\
    deliver 14\n\
    deliver 10\n\
    deliver 16\n\
    deliver 17\n\
    deliver 18\n\
    store 0 0 0 3\n\
    deliver 19\n\
    show 0 0\n\
    deliver 12\n";

pub(super) const TEXT: &[u8] = b"1 ready\n\
    2 fault m0>0:Ask\n\
    3 fault m1>0:Ask\n\
    4 took m2>0:Hand\n\
    5 took\n\
    6 took m3>1:Page\n\
    7 took m4>0:Confirm\n\
    8 took m5>0:Hand\n\
    9 took m6>2:Page\n\
    10 took m7>0:Confirm\n\
    11 took\n\
    12 fault m8>0:Ask\n\
    13 took m9>1:Clear m10>2:Clear\n\
    14 took m11>0:Cleared\n\
    15 took\n\
    16 took m12>0:Ask m13>2:Clear\n\
    17 page 0:OwnRead/2 1:Nil/3 2:Copy/2 owner 0 copies 1,2 t 3 write 0\n\
    18 took\n\
    19 page 0:OwnRead/2 1:Nil/3 2:Copy/2 owner 0 copies 1,2 t 3 write 0\n\
    20 took m14>1:Clear m15>2:Clear\n\
    21 took m16>0:Cleared\n\
    22 took m17>0:Cleared\n\
    23 took\n\
    24 took m18>0:Hand\n\
    25 took m19>0:Confirm\n\
    26 stored\n\
    27 took\n\
    28 page 0:OwnWrite/3 1:Nil/3 2:Nil/3 owner 0 copies - t 3 idle\n\
    29 dropped\n";
