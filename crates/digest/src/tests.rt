use crate::{Digest, Fnv, Md5};

// Of the test suite of RFC 1321, appendix A.5.
#[test]
fn md5_of_one_block(rt: HostRuntime) {
    assert_eq!(rt;
        Md5.words(b""),
        [0xd41d8cd9, 0x8f00b204, 0xe9800998, 0xecf8427e]
    );
    assert_eq!(rt;
        Md5.words(b"abc"),
        [0x90015098, 0x3cd24fb0, 0xd6963f7d, 0x28e17f72]
    );
}

// The padding takes a second block from 56 octets on.
#[test]
fn md5_of_two_blocks(rt: HostRuntime) {
    let digits =
        b"12345678901234567890123456789012345678901234567890123456789012345678901234567890";
    assert_eq!(rt;
        Md5.words(&digits[..56]),
        [0x49f193ad, 0xce178490, 0xe34d1b3a, 0x4ec0064c]
    );
    assert_eq!(rt;
        Md5.words(&digits[..64]),
        [0xeb6c4179, 0xc0a7c82c, 0xc2828c1e, 0x6338e165]
    );
    assert_eq!(rt;
        Md5.words(digits),
        [0x57edf4a2, 0x2be3c955, 0xac49da2e, 0x2107b67a]
    );
}

#[test]
fn fnv(rt: HostRuntime) {
    assert_eq!(rt;
        Fnv.words(b""),
        [0xcbf29ce4, 0x84222325, 0xaf63bc4c, 0x8601b62c]
    );
    assert_eq!(rt;
        Fnv.words(b"a"),
        [0xaf63dc4c, 0x8601ec8c, 0x089be307, 0xb544f397]
    );
    assert_eq!(rt;
        Fnv.words(b"foobar"),
        [0x85944171, 0xf73967e8, 0x34531da7, 0x168b90eb]
    );
}
