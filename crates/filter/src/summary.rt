// The summary of a filter.
ghost use Rattle.std.specs.Prelude.{◌≡◌, ℕ, ◌*◌, ◌<◌, vec_len, slice_index};

use crate::size::FilterSize;

mod methods;

// A bit for each position, eight to an octet: position p has the value 2^(p mod 8) in octet p / 8.
#[derive(Drop)]
pub struct Summary {
    size: FilterSize,
    octets: Vec<u8>,
    ghost long: { 8 * vec_len octets ≡ size.positions },
    ghost octet: { (i : ℕ) → slice_index octets.items i < 256 },
}
