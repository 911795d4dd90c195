//! `examples/lost-page.shm` is the same script, and `examples/lost-page.out` the same text.
use super::Example;

pub(super) const EXAMPLE: Example = Example {
    name: "lost-page",
    script: SCRIPT,
    text: TEXT,
};

pub(super) const SCRIPT: &[u8] = b"sites 2 preset 1\n\
    store 0 0 4095 200\n\
    store 1 0 0 6\n\
    deliver 0\n\
    deliver 1\n\
    lose 2\n\
    deliver 2\n\
    show 0 0\n\
    store 1 0 0 6\n\
    tick 1\n\
    deliver 3\n\
    tick 0\n\
    deliver 4\n\
    deliver 5\n\
    store 1 0 0 6\n\
    load 1 0 4095\n\
    deliver 6\n\
    show 0 0\n\
    tick 0\n\
    tick 1\n";

pub(super) const TEXT: &[u8] = b"1 ready\n\
    2 stored\n\
    3 fault m0>0:Ask\n\
    4 took m1>0:Hand\n\
    5 took m2>1:Page\n\
    6 took\n\
    7 refused 15\n\
    8 page 0:Handed/1 1:Nil/0 owner 0 copies - t 1 write 1\n\
    9 waiting\n\
    10 took m3>0:Ask\n\
    11 dropped\n\
    12 took m4>0:Hand\n\
    13 took m5>1:Page\n\
    14 took m6>0:Confirm\n\
    15 stored\n\
    16 byte 200\n\
    17 took\n\
    18 page 0:Handed/1 1:OwnWrite/1 owner 1 copies - t 1 idle\n\
    19 took\n\
    20 took\n";
