// Digests of names: four words of 32 bits, by a function of the name's octets alone.
#![tactic(auto)]

ghost use Rattle.std.specs.Prelude.{◌≡◌, ℕ, ◌^◌, ◌<◌, List, length, slice_index};
ghost use Rattle.std.specs.List.{AllByRecursion};

mod fnv1a;
mod rfc1321;
#[cfg(test)]
mod tests;

pub use fnv1a::Fnv;
pub use rfc1321::Md5;

// A digest, by the words that it gives each name.
pub trait Digest {
    // the words of a name, from its octets
    ghost words: { List ℕ → List ℕ };

    fn words(&self, name: &[u8]) -> [u32; 4]
        ensures { result ≡ words name.now };

    // There are four words.
    ghost four: { (name : List ℕ) → length (words name) ≡ 4 };

    // Each has 32 bits.
    ghost narrow: { (name : List ℕ) → AllByRecursion (λ w. w < 2 ^ 32) (words name) };
}

// A word of a name's digest by its number, and 0 past the four, so that each C export is one call.
pub fn word_of<D: Digest>(digest: &D, name: &[u8], number: usize) -> u32
    ensures { result ≡ slice_index (D.words name.now) number }
{
    digest.words(name).get(number).copied().unwrap_or(0)
}
