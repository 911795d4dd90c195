//! `examples/going-back.shm` is the same script, and `examples/going-back.out` the same text.
use super::Example;

pub(super) const EXAMPLE: Example = Example {
    name: "going-back",
    script: SCRIPT,
    text: TEXT,
};

pub(super) const SCRIPT: &[u8] = b"sites 2 preset 1\n\
    store 0 0 0 7\n\
    load 1 0 0\n\
    deliver 0\n\
    show 0 0\n\
    lose 1\n\
    tick 0\n\
    deliver 2\n\
    show 0 0\n\
    back 3\n\
    show 0 0\n\
    deliver 2\n\
    back 1\n\
    deliver 1\n\
    deliver 2\n\
    load 1 0 0\n\
    deliver 3\n\
    show 0 0\n\
    back 8\n\
    back 7\n\
    show 0 0\n\
    load 0 0 0\n\
    back 0\n";

pub(super) const TEXT: &[u8] = b"1 ready\n\
    2 stored\n\
    3 fault m0>0:Ask\n\
    4 took m1>0:Hand\n\
    5 page 0:OwnWrite/0 1:Nil/0 owner 0 copies - t 1 read 1\n\
    6 took\n\
    7 took m2>0:Hand\n\
    8 took m3>1:Page\n\
    9 page 0:OwnRead/1 1:Nil/0 owner 0 copies - t 1 read 1\n\
    10 back 3\n\
    11 page 0:OwnWrite/0 1:Nil/0 owner 0 copies - t 1 read 1\n\
    12 refused 15\n\
    13 back 3\n\
    14 took m2>1:Page\n\
    15 took m3>0:Confirm\n\
    16 byte 7\n\
    17 took\n\
    18 page 0:OwnRead/1 1:Copy/1 owner 0 copies 1 t 1 idle\n\
    19 refused 28\n\
    20 back 0\n\
    21 page 0:OwnWrite/0 1:Nil/0 owner 0 copies - t 0 idle\n\
    22 byte 0\n\
    23 back 1\n";
