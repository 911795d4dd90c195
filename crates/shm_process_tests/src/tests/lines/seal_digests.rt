//! The digests of sealed lines, against RFC 4231.
use shm_seal::Key;
use std::alloc::{AllocError, Global};
use std::test::Fail;

/// The digest in hexadecimal of this text under a key of so many equal bytes.
fn digest_of(alloc: Global, byte: u8, count: usize, text: &[u8]) -> Result<String, AllocError> {
    let bytes = vec![in alloc; byte; count]?;
    let digest = Key::new(bytes.as_slice()).digest(text, b"".as_slice());
    hex::encode(alloc, digest.as_slice())
}

/// The test cases 1, 3 and 6 of RFC 4231.
#[test]
fn digests_are_those_of_rfc_4231(rt: HostRuntime) -> Result<(), Fail> {
    let alloc = rt.alloc();
    let first = digest_of(alloc, 0x0b, 20, b"Hi There")?;
    assert_eq!(rt;
        first.as_str(),
        "b0344c61d8db38535ca8afceaf0bf12b881dc200c9833da726e9376c2e32cff7"
    );
    let third = digest_of(alloc, 0xaa, 20, [0xdd; 50].as_slice())?;
    assert_eq!(rt;
        third.as_str(),
        "773ea91e36800e46854db8ebd09181a72959098b3ef8c122d9635514ced565fe"
    );
    let text = b"Test Using Larger Than Block-Size Key - Hash Key First";
    let sixth = digest_of(alloc, 0xaa, 131, text.as_slice())?;
    assert_eq!(rt;
        sixth.as_str(),
        "60e431591ee0b67f0d8a26aacbf5b77f8e0bc6213728c5140546040f0ee37f54"
    );
    Ok(())
}
