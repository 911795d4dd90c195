//! `examples/two-sites.shm` is the same script, and `examples/two-sites.out` the same text.
use super::Example;

pub(super) const EXAMPLE: Example = Example {
    name: "two-sites",
    script: SCRIPT,
    text: TEXT,
};

pub(super) const SCRIPT: &[u8] = b"sites 2 preset 2\n\
    show 0 0\n\
    store 0 0 0 7\n\
    load 0 0 0\n\
    load 0 0 4095\n\
    load 1 0 4096\n\
    store 1 0 4096 9\n\
    load 1 0 4096\n\
    load 1 0 0\n\
    load 1 0 0\n\
    deliver 0\n\
    deliver 1\n\
    deliver 2\n\
    deliver 3\n\
    load 1 0 0\n\
    show 0 0\n\
    load 0 0 8192\n\
    load 0 1 0\n\
    load 2 0 0\n\
    deliver 3\n\
    show 0 256\n";

pub(super) const TEXT: &[u8] = b"1 ready\n\
    2 page 0:OwnWrite/0 1:Nil/0 owner 0 copies - t 0 idle\n\
    3 stored\n\
    4 byte 7\n\
    5 byte 0\n\
    6 byte 0\n\
    7 stored\n\
    8 byte 9\n\
    9 fault m0>0:Ask\n\
    10 waiting\n\
    11 took m1>0:Hand\n\
    12 took m2>1:Page\n\
    13 took m3>0:Confirm\n\
    14 took\n\
    15 byte 7\n\
    16 page 0:OwnRead/1 1:Copy/1 owner 0 copies 1 t 1 idle\n\
    17 refused 11\n\
    18 refused 9\n\
    19 refused 14\n\
    20 refused 15\n\
    21 refused 16\n";
