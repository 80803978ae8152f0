// The counters of a filter.
ghost use Rattle.std.specs.Prelude.{◌≡◌, ℕ, ◌≤◌, vec_len, slice_index};

use crate::size::FilterSize;

mod methods;

// A counter of 4 bits for each position.
#[derive(Drop)]
pub struct CountingFilter {
    size: FilterSize,
    counters: Vec<u8>,
    ghost long: { vec_len counters ≡ size.positions },
    ghost small: { (p : ℕ) → slice_index counters.items p ≤ 15 },
}
