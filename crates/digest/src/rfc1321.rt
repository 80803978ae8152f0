// MD5, after RFC 1321.
ghost use Rattle.std.specs.Prelude.{◌≡◌, ◌+◌, ◌%◌, ◌++◌, fold, length, replicate, refl};
ghost use Rattle.digest.specs.Md5.{zeros, appended, block, md5_words};
ghost use Rattle.digest.specs.Narrow.{md5_narrow};

mod rounds;

use crate::Digest;
use rounds::Registers;

#[derive(Clone, Copy, PartialEq, Eq, Debug)]
pub struct Md5;

// The buffer before the first block.
const INITIAL: Registers = Registers {
    a: 0x67452301,
    b: 0xefcdab89,
    c: 0x98badcfe,
    d: 0x10325476,
};

// The registers after some blocks, from `r` on.
fn process(blocks: &[[u8; 64]], r: Registers) -> Registers
    ensures { result ≡ fold (λ r x. block x r) r blocks.now }
{
    blocks.iter().fold(r, |r, x| r.compress(x))
}

// How many octets follow the whole blocks of a message of `len` octets, once it is padded.
fn padded_len(len: usize) -> usize
    ensures { result ≡ len % 64 + 9 + zeros len }
{
    if len % 64 < 56 { 64 } else { 128 }
}

// What follows the whole blocks of a message of `len` octets, padded: its last octets `rest`, and what is appended, written into zeros.
fn pad<'b>(rest: &[u8], len: usize, buffer: &'b mut [u8; 128]) -> &'b [u8]
    requires short { length rest.now ≡ len % 64 }
    requires blank { buffer.old ≡ replicate 128 0 }
    ensures { result.now ≡ rest.now ++ appended len }
{
    let end = padded_len(len);
    buffer[..rest.len()].copy_from_slice(rest);
    buffer[rest.len()] = 0x80;
    buffer[end - 8..end].copy_from_slice(&len.wrapping_mul(8).to_le_bytes());
    &buffer[..end]
}

impl Digest for Md5 {
    ghost words = { md5_words };

    ghost four = { λ name. refl };

    ghost narrow = { md5_narrow };

    fn words(&self, name: &[u8]) -> [u32; 4] {
        let (blocks, rest) = name.as_chunks();
        let r = process(blocks, INITIAL);
        let mut buffer = [0; 128];
        let (blocks, _) = pad(rest, name.len(), &mut buffer).as_chunks();
        let r = process(blocks, r);
        r.words()
    }
}
