// Test vectors as their documents publish them.

// A message, and its digest in hexadecimal.
pub(crate) type Vector = (&'static str, &'static str);

// The test suite of RFC 1321, appendix A.5.
pub(crate) const MD5_VECTORS: [Vector; 7] = [
    ("", "d41d8cd98f00b204e9800998ecf8427e"),
    ("a", "0cc175b9c0f1b6a831c399e269772661"),
    ("abc", "900150983cd24fb0d6963f7d28e17f72"),
    ("message digest", "f96b697d7cb7938d525a2f31aaf161d0"),
    (
        "abcdefghijklmnopqrstuvwxyz",
        "c3fcd3d76192e4007dfb496cca67e13b",
    ),
    (
        "ABCDEFGHIJKLMNOPQRSTUVWXYZabcdefghijklmnopqrstuvwxyz0123456789",
        "d174ab98d277d9f5a5611c2c9f419d9f",
    ),
    (
        "12345678901234567890123456789012345678901234567890123456789012345678901234567890",
        "57edf4a22be3c955ac49da2e2107b67a",
    ),
];

// Values of FNV-1a with 64 bits, as its authors publish them.
pub(crate) const FNV_VECTORS: [Vector; 7] = [
    ("", "cbf29ce484222325"),
    ("a", "af63dc4c8601ec8c"),
    ("b", "af63df4c8601f1a5"),
    ("fo", "08985907b541d342"),
    ("foo", "dcb27518fed9d577"),
    ("foob", "dd120e790c2512af"),
    ("foobar", "85944171f73967e8"),
];
