// FNV-1a of 64 bits, of a name and of the name followed by the octet 01.
ghost use Rattle.std.specs.Prelude.{◌≡◌, refl};
ghost use Rattle.digest.specs.Fnv.{hashed, halves, fnv_words};
ghost use Rattle.digest.specs.Narrow.{fnv_narrow};

use crate::Digest;

const OFFSET_BASIS: u64 = 0xcbf29ce484222325;

const PRIME: u64 = 0x100000001b3;

#[derive(Clone, Copy, PartialEq, Eq, Debug)]
pub struct Fnv;

// The hash after one more octet.
fn hash(h: u64, octet: u8) -> u64
    ensures { result ≡ hashed h octet }
{
    (h ^ octet as u64).wrapping_mul(PRIME)
}

// The high half, and then the low one.
fn halves(h: u64) -> [u32; 2]
    ensures { result ≡ halves h }
{
    [(h >> 32) as u32, (h & 0xffff_ffff) as u32]
}

impl Digest for Fnv {
    ghost words = { fnv_words };

    ghost four = { λ name. refl };

    ghost narrow = { fnv_narrow };

    fn words(&self, name: &[u8]) -> [u32; 4] {
        let h = name.iter().fold(OFFSET_BASIS, |h, octet| hash(h, *octet));
        let [a, b] = halves(h);
        let [c, d] = halves(hash(h, 1));
        [a, b, c, d]
    }
}
