// The digests by a word at a time, for C programs that link the library: a function for each digest, since C calls them by name.
#![tactic(auto)]

ghost use Rattle.std.specs.Prelude.{◌≡◌, slice_index};
ghost use Rattle.digest.specs.Fnv.{fnv_words};
ghost use Rattle.digest.specs.Md5.{md5_words};

use digest::{Fnv, Md5, word_of};

// A word of the MD5 digest, and 0 past the four.
#[unsafe(no_mangle)]
pub extern "C" fn digest_md5(name: &[u8], number: usize) -> u32
    ensures { result ≡ slice_index (md5_words name.now) number }
{
    word_of(&Md5, name, number)
}

// A word of the FNV-1a digest, and 0 past the four.
#[unsafe(no_mangle)]
pub extern "C" fn digest_fnv(name: &[u8], number: usize) -> u32
    ensures { result ≡ slice_index (fnv_words name.now) number }
{
    word_of(&Fnv, name, number)
}
