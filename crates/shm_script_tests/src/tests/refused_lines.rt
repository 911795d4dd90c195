use super::replay_script;
use shm_debug::DebugFault;
use std::alloc::Global;
use std::process::Abort;

/// Scripts whose first line is bad.
const FIRST: [&[u8]; 16] = [
    b"",
    b"\n",
    b"sites 0\n",
    b"sites 17\n",
    b"sites 17",
    b"sites 16 preset 257\n",
    b"sites 1 preset 0\n",
    b"sites 1 preset 1 frames 0\n",
    b"sites 1 preset 1 frames 65537\n",
    b"sites 1 frames 1\n",
    b"sites 1 preset 1",
    b"sites 01\n",
    b"load 0 0 0\n",
    b"sites  1\n",
    b"sites 1 preset 1 \n",
    b"back 0\nsites 1\n",
];

/// Scripts whose second line is bad.
const SECOND: [&[u8]; 13] = [
    b"sites 1 preset 1\n\n",
    b"sites 1 preset 1\nload 0 0 0 \n",
    b"sites 1 preset 1\n load 0 0 0\n",
    b"sites 1 preset 1\nload 0 0 0\r\n",
    b"sites 1 preset 1\n\xff\n",
    b"sites 1 preset 1\n\x00",
    b"sites 1 preset 1\nload 0 0 0",
    b"sites 1 preset 1\nsites 1 preset 1\n",
    b"sites 1 preset 1\nback\n",
    b"sites 1 preset 1\nback 01\n",
    b"sites 1 preset 1\ndeliver\n",
    b"sites 1 preset 1\nlose x\n",
    b"sites 1 preset 1\nload 0 0 -1\nload 0 0 0\n",
];

/// Each script ends with this fault, after this text.
fn all_end(rt: &impl Abort, alloc: Global, scripts: &[&[u8]], fault: DebugFault, told: &[u8]) {
    for script in scripts {
        let (result, text) = replay_script(alloc, script);
        assert_eq!(rt; result, Err(fault), "at {script:?}");
        assert_eq!(rt; text.as_slice(), told, "at {script:?}");
    }
}

#[test]
fn a_bad_first_line(rt: HostRuntime) {
    let fault = DebugFault::BadLine(1);
    all_end(&rt, rt.alloc(), FIRST.as_slice(), fault, b"".as_slice());
}

#[test]
fn a_bad_second_line(rt: HostRuntime) {
    let fault = DebugFault::BadLine(2);
    all_end(
        &rt,
        rt.alloc(),
        SECOND.as_slice(),
        fault,
        b"1 ready\n".as_slice(),
    );
}
