// Stores filled and searched.
use crate::PLACES;
use store::{Record, Store};

// The name of a number: eight octets, none of them zero.
fn name_of(number: usize) -> [u8; 8] {
    let mut name = *b"record..";
    name[6] = (number / 128 % 128) as u8 + 128;
    name[7] = (number % 128) as u8 + 128;
    name
}

// A record for each place.
pub(crate) fn fill<S: Store>(store: &mut S) {
    for number in 0..PLACES {
        let _ = store.add(Record {
            name: &name_of(number),
            size: 1,
            cost: 1,
        });
    }
}

// Searches for every name, held and not held, so many times; the places found, summed.
pub(crate) fn find_all<S: Store>(store: &S, rounds: u32) -> u64 {
    let mut sum: u64 = 0;
    for _ in 0..rounds {
        for number in 0..2 * PLACES {
            if let Some(place) = store.find(&name_of(number)) {
                sum = sum.wrapping_add(place as u64);
            }
        }
    }
    sum
}
