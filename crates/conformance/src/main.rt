// Runs the published test vectors of the digests, and prints each with what came of it.
#![tactic(auto)]

mod vectors;

use anyhow::anyhow;
use digest::{Digest, Fnv, Md5};
use hexadecimal::hex;
use std::alloc::{AllocError, Global};
use vectors::{FNV_VECTORS, MD5_VECTORS, Vector};

// The first `count` words as text in hexadecimal, the highest octet of each first.
fn words_text(heap: Global, words: &[u32], count: usize) -> Result<String, AllocError> {
    let octets: Vec<u8> = words
        .iter()
        .take(count)
        .flat_map(|word| word.to_be_bytes())
        .collect(heap)?;
    hex(heap, octets.as_slice())
}

// Prints each vector by the first `count` words of its digest, and answers whether all came out as published.
fn report<D: Digest>(
    rt: &HostRuntime,
    name: &str,
    digest: &D,
    count: usize,
    vectors: &[Vector],
) -> anyhow::Result<bool> {
    let mut all = true;
    for (message, published) in vectors {
        let found = words_text(rt.alloc(), &digest.words(message.as_bytes()), count)?;
        let agrees = found.as_str() == *published;
        let verdict = if agrees { "agrees" } else { "differs" };
        println!(rt; "{name} {message:?} {found} {verdict}")?;
        all &= agrees;
    }
    Ok(all)
}

fn run(rt: &HostRuntime) -> anyhow::Result<()> {
    let md5 = report(rt, "md5", &Md5, 4, &MD5_VECTORS)?;
    let fnv = report(rt, "fnv1a", &Fnv, 2, &FNV_VECTORS)?;
    if !(md5 && fnv) {
        return Err(anyhow!("a vector differs from what is published"));
    }
    Ok(())
}

fn main(rt: HostRuntime) -> anyhow::Result<()> {
    run(&rt)
}
