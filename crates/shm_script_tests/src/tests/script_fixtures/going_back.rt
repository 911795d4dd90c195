//! Events that are taken back.

use super::Script;

/// A loss is taken back.
pub const LOST_REQUEST_AND_BACK: Script = Script {
    name: "lost request and back",
    input: b"sites 2 preset 1\n\
        load 1 0 0\n\
        lose 0\n\
        deliver 0\n\
        back 4\n\
        back 2\n\
        deliver 0\n",
    text: b"1 ready\n\
        2 fault m0>0:Ask\n\
        3 took\n\
        4 refused 15\n\
        5 refused 28\n\
        6 back 1\n\
        7 took m1>0:Hand\n",
    lines: 7,
    events: 2,
    sent: 2,
};

/// All events are taken back.
pub const BACK_TO_THE_BEGINNING: Script = Script {
    name: "back to the beginning",
    input: b"sites 2 preset 1\n\
        store 0 0 0 7\n\
        load 1 0 0\n\
        deliver 0\n\
        deliver 1\n\
        deliver 2\n\
        deliver 3\n\
        load 1 0 0\n\
        back 2\n\
        show 0 0\n\
        deliver 3\n\
        back 7\n\
        back 6\n\
        show 0 0\n",
    text: b"1 ready\n\
        2 stored\n\
        3 fault m0>0:Ask\n\
        4 took m1>0:Hand\n\
        5 took m2>1:Page\n\
        6 took m3>0:Confirm\n\
        7 took\n\
        8 byte 7\n\
        9 back 5\n\
        10 page 0:OwnRead/1 1:Copy/1 owner 0 copies - t 1 read 1\n\
        11 took\n\
        12 refused 28\n\
        13 back 0\n\
        14 page 0:OwnWrite/0 1:Nil/0 owner 0 copies - t 0 idle\n",
    lines: 14,
    events: 0,
    sent: 0,
};

/// Refused events are taken back too, and lines that show are none.
pub const BACK: Script = Script {
    name: "back",
    input: b"sites 2 preset 1\n\
        back 0\n\
        back 1\n\
        load 0 9 0\n\
        deliver 7\n\
        show 0 0\n\
        back 0\n\
        back 3\n\
        back 1\n\
        load 1 0 0\n\
        lose 0\n\
        back 1\n\
        deliver 0\n\
        deliver 0\n\
        back 4294967295\n\
        back 4\n\
        show 0 0\n\
        load 1 0 0\n",
    text: b"1 ready\n\
        2 back 0\n\
        3 refused 28\n\
        4 refused 9\n\
        5 refused 15\n\
        6 page 0:OwnWrite/0 1:Nil/0 owner 0 copies - t 0 idle\n\
        7 back 2\n\
        8 refused 28\n\
        9 back 1\n\
        10 fault m0>0:Ask\n\
        11 took\n\
        12 back 2\n\
        13 took m1>0:Hand\n\
        14 refused 15\n\
        15 refused 28\n\
        16 back 0\n\
        17 page 0:OwnWrite/0 1:Nil/0 owner 0 copies - t 0 idle\n\
        18 fault m0>0:Ask\n",
    lines: 18,
    events: 1,
    sent: 1,
};
