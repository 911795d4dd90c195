//! `examples/read-fault.shm` is the same script, and `examples/read-fault.out` the same text.
use super::Example;

pub(super) const EXAMPLE: Example = Example {
    name: "read-fault",
    script: SCRIPT,
    text: TEXT,
};

pub(super) const SCRIPT: &[u8] = b"sites 3 preset 2\n\
    store 1 0 4096 42\n\
    show 0 1\n\
    load 2 0 4096\n\
    load 2 0 8191\n\
    show 0 1\n\
    deliver 0\n\
    show 0 1\n\
    deliver 1\n\
    show 0 1\n\
    deliver 2\n\
    load 2 0 4096\n\
    load 2 0 8191\n\
    load 1 0 4096\n\
    deliver 3\n\
    show 0 1\n";

pub(super) const TEXT: &[u8] = b"1 ready\n\
    2 stored\n\
    3 page 0:Nil/0 1:OwnWrite/0 2:Nil/0 owner 1 copies - t 0 idle\n\
    4 fault m0>1:Ask\n\
    5 waiting\n\
    6 page 0:Nil/0 1:OwnWrite/0 2:Nil/0 owner 1 copies - t 0 idle\n\
    7 took m1>1:Hand\n\
    8 page 0:Nil/0 1:OwnWrite/0 2:Nil/0 owner 1 copies - t 1 read 2\n\
    9 took m2>2:Page\n\
    10 page 0:Nil/0 1:OwnRead/1 2:Nil/0 owner 1 copies - t 1 read 2\n\
    11 took m3>1:Confirm\n\
    12 byte 42\n\
    13 byte 0\n\
    14 byte 42\n\
    15 took\n\
    16 page 0:Nil/0 1:OwnRead/1 2:Copy/1 owner 1 copies 2 t 1 idle\n";
