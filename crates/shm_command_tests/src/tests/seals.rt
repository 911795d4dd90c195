//! A site under a cluster's name and key.
use super::{Ran, expect, run_over};
use shm_command::Lock;
use std::alloc::AllocError;
use std::fs;
use std::rt::{Clock, Files};
use std::sync::Wait;
use std::test::Fail;
use std::thread::Threads;

/// Runs the only site with these options too.
fn run_site<R: AllocGlobal + Clock + Files + Threads + Wait + Copy + Send + Sync + 'static>(
    rt: &R,
    options: &[&str],
    lines: &[u8],
) -> Result<Ran, AllocError>
where
    R::File: Lock,
{
    let mut words = vec![in rt.alloc(); "shmdbg", "site", "--sites=1", "--me=0", "--preset=1"]?;
    words.extend_from_slice(options)?;
    let mut reader = lines;
    Ok(run_over(rt, words.as_slice(), &mut reader))
}

/// The lines of the cluster are taken and no others, and of those it is told how many came. The digests are those of Python's hmac.
#[test]
fn lines_of_a_cluster(rt: HostRuntime) -> Result<(), Fail> {
    fs::write(&rt, "cluster.key", b"secret\n")?;
    let lines =
        b"ask 0 a store 0 5 7 @north 7d18904d461a9e6e2b1daca92a1b406beb73d88b784e36ef605897a4a7b8917d
ask 0 b store 0 5 8 @north 7d18904d461a9e6e2b1daca92a1b406beb73d88b784e36ef605897a4a7b8917d
ask 0 c store 0 5 9 @north
ask 0 d store 0 5 9
";
    let ran = run_site(
        &rt,
        &["--cluster=north", "--key=cluster.key"],
        lines.as_slice(),
    )?;
    fs::remove_file(&rt, "cluster.key")?;
    expect(
        &rt,
        &ran,
        0,
        b"tell 0 a stored @north 22adcb8905e9268b62f9a477cd5e201ab94eafc6666676874e2d5161a21c0f9f\n",
        b"shmdbg: lines passed over: 1 of another cluster, 1 without a digest, 1 with a wrong digest\n",
    );
    Ok(())
}

/// Names and keys that can't be; nothing is told.
#[test]
fn seals_that_are_refused(rt: HostRuntime) -> Result<(), Fail> {
    fs::write(&rt, "empty.key", b"\n")?;
    let name =
        b"shmdbg: cluster: a name has 1 to 32 bytes of printable ASCII, and no blank\n".as_slice();
    let cases: [(&[&str], u8, &[u8]); 5] = [
        (&["--cluster=a b"], 1, name),
        (&["--cluster=a-name-that-has-thirty-three-byte"], 1, name),
        (
            &["--key=none.key"],
            1,
            b"shmdbg: key: it needs a cluster's name: --cluster NAME\n",
        ),
        (
            &["--cluster=north", "--key=none.key"],
            3,
            b"shmdbg: key: there is no such file\n",
        ),
        (
            &["--cluster=north", "--key=empty.key"],
            1,
            b"shmdbg: key: its file is empty\n",
        ),
    ];
    for (options, status, errors) in cases {
        let ran = run_site(&rt, options, b"ask 0 a tick\n")?;
        expect(&rt, &ran, status, b"", errors);
    }
    fs::remove_file(&rt, "empty.key")?;
    Ok(())
}
