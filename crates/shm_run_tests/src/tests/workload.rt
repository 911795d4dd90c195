use linked_list_allocator::LocalHeap;
use shm_lines::{WorkloadAccess, WorkloadFault, parse_workload};
use shm_model::Asked;
use shm_place::{SiteId, Sites};
use std::test::Fail;

/// Three sites.
fn sites() -> Result<Sites, Fail> {
    Ok(Sites::new(3).ok().ok_or("1 to 16 sites")?)
}

#[test]
fn what_callers_do(rt: HostRuntime) -> Result<(), Fail> {
    let text = b"preset 2\nstore 1 8191 7\nload 2 0\n".as_slice();
    let Ok(workload) = parse_workload(rt.alloc(), sites()?, text) else {
        return Err("a workload".into());
    };
    let store = WorkloadAccess {
        site: SiteId(1),
        asked: Asked::Store {
            at: 0,
            offset: 8191,
            byte: 7,
        },
    };
    let load = WorkloadAccess {
        site: SiteId(2),
        asked: Asked::Load { at: 0, offset: 0 },
    };
    assert_eq!(rt; workload.pages, 2);
    assert_eq!(rt; workload.accesses.as_slice(), [store, load].as_slice());
    drop(workload);
    Ok(())
}

/// Workloads of three sites, and the number of the first wrong line.
const BAD: [(&[u8], u64); 16] = [
    (b"", 1),
    (b"\n", 1),
    (b"preset 1", 1),
    (b"preset 0\n", 1),
    (b"preset 257\n", 1),
    (b"preset 01\n", 1),
    (b"sites 1 preset 1\n", 1),
    (b"load 0 0\n", 1),
    (b"preset 1\n\n", 2),
    (b"preset 1\npreset 1\n", 2),
    (b"preset 1\nload 3 0\n", 2),
    (b"preset 1\nload 0 4096\n", 2),
    (b"preset 1\nload 0 0 0\n", 2),
    (b"preset 1\nload 0 0\nstore 0 0 256\n", 3),
    (b"preset 1\nload 0 0\nstore 0 0\n", 3),
    (b"preset 1\nload 0 0\nload 0 0", 3),
];

#[test]
fn bad_lines(rt: HostRuntime) -> Result<(), Fail> {
    let sites = sites()?;
    for (text, line) in BAD {
        let fault = parse_workload(rt.alloc(), sites, text).err();
        assert_eq!(rt; fault, Some(WorkloadFault::BadLine(line)), "{text:?}");
    }
    Ok(())
}

#[test]
fn long_lines(rt: HostRuntime) -> Result<(), Fail> {
    let mut text = [b'x'; 211];
    text[..9].copy_from_slice(b"preset 1\n".as_slice());
    let fault = parse_workload(rt.alloc(), sites()?, &text[..210]).err();
    assert_eq!(rt; fault, Some(WorkloadFault::LineTooLong(2)));
    let fault = parse_workload(rt.alloc(), sites()?, &text[..209]).err();
    assert_eq!(rt; fault, Some(WorkloadFault::BadLine(2)));
    Ok(())
}

#[test]
fn refused_memory(rt: HostRuntime) -> Result<(), Fail> {
    let heap = LocalHeap::new(rt.alloc(), 0)?;
    let text = b"preset 1\nload 0 0\n".as_slice();
    let fault = parse_workload(&heap, sites()?, text).err();
    assert_eq!(rt; fault, Some(WorkloadFault::OutOfMemory));
    drop(heap);
    Ok(())
}
