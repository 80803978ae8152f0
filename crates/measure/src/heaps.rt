// The eviction heap at work.
use crate::PLACES;
use eviction::{Entry, EvictionHeap, Stamp};
use std::alloc::{AllocError, Global};

// The next of a row of numbers without an order.
fn next(x: u32) -> u32 {
    x.wrapping_mul(1664525).wrapping_add(1013904223)
}

// Memory for the entries.
fn blank(heap: Global) -> Result<Vec<Entry<Stamp>>, AllocError> {
    let rank = Stamp(0);
    Ok(vec![in heap; Entry { rank, place: 0 }; PLACES]?)
}

// Inserts an entry for each place, by the ranks that follow `x`, and answers the last of them.
fn insert_all(queue: &mut EvictionHeap, entries: &mut [Entry<Stamp>], mut x: u32) -> u32 {
    for place in 0..PLACES {
        x = next(x);
        let rank = Stamp(x);
        let _ = queue.insert(entries, Entry { rank, place });
    }
    x
}

// Inserts an entry for each place, and takes all out again, so many times.
pub(crate) fn drain(heap: Global, rounds: u32) -> Result<u64, AllocError> {
    let mut entries = blank(heap)?;
    let mut queue = EvictionHeap::new();
    let mut sum: u64 = 0;
    let mut x = 1;
    for _ in 0..rounds {
        x = insert_all(&mut queue, entries.as_mut_slice(), x);
        for turn in 0..PLACES {
            if let Some(entry) = queue.take_least(entries.as_mut_slice()) {
                sum = sum.wrapping_add((entry.place as u64).wrapping_mul(turn as u64));
            }
        }
    }
    Ok(sum)
}

// Gives places new ranks, one after another, and looks at the least each time.
pub(crate) fn rerank_all(heap: Global, rounds: u32) -> Result<u64, AllocError> {
    let mut entries = blank(heap)?;
    let mut queue = EvictionHeap::new();
    let mut sum: u64 = 0;
    let mut x = insert_all(&mut queue, entries.as_mut_slice(), 1);
    for _ in 0..rounds {
        for _ in 0..PLACES {
            x = next(x);
            let place = (x / 65536) as usize % PLACES;
            let _ = queue.rerank(entries.as_mut_slice(), place, Stamp(x));
            if let Some(least) = queue.peek(entries.as_slice()) {
                sum = sum.wrapping_add(least.place as u64);
            }
        }
    }
    Ok(sum)
}
