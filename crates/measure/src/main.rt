// Times stores and the eviction heap at 1,024 places. What was computed goes to standard output, the times to standard error.
#![tactic(auto)]

mod heaps;
mod stores;

use anyhow::anyhow;
use heaps::{drain, rerank_all};
use std::env;
use std::time::Instant;
use store::{CELLS, Cell, HashedIndex, Row, Store, Table};
use stores::{fill, find_all};

// The places of the stores and of the heap.
const PLACES: usize = 1024;

// Prints what a run computed, and how long it took.
fn report(rt: &HostRuntime, what: &str, sum: u64, start: Instant) -> anyhow::Result<()> {
    let nanos = start.elapsed(rt)?.as_nanos();
    println!(rt; "{what} {sum}")?;
    eprintln!(rt; "{what} {nanos} ns")?;
    Ok(())
}

// Fills a store, and times its finds.
fn time_finds<S: Store>(
    rt: &HostRuntime,
    what: &str,
    store: &mut S,
    rounds: u32,
) -> anyhow::Result<()> {
    fill(store);
    let start = Instant::now(rt)?;
    let sum = find_all(store, rounds);
    report(rt, what, sum, start)
}

fn time_table(rt: &HostRuntime, rounds: u32) -> anyhow::Result<()> {
    let mut rows = vec![in rt.alloc(); Row::free(); PLACES]?;
    let Ok(mut table) = Table::new(PLACES, rows.as_mut_slice()) else {
        return Err(anyhow!("the table was refused"));
    };
    time_finds(rt, "table find", &mut table, rounds)
}

fn time_index(rt: &HostRuntime, rounds: u32) -> anyhow::Result<()> {
    let mut rows = vec![in rt.alloc(); Row::free(); PLACES]?;
    let mut cells = vec![in rt.alloc(); Cell::Never; CELLS]?;
    let Ok(mut index) = HashedIndex::new(PLACES, rows.as_mut_slice(), cells.as_mut_slice()) else {
        return Err(anyhow!("the index was refused"));
    };
    time_finds(rt, "index find", &mut index, rounds)
}

fn time_heap(rt: &HostRuntime, rounds: u32) -> anyhow::Result<()> {
    let start = Instant::now(rt)?;
    let sum = drain(rt.alloc(), rounds)?;
    report(rt, "heap insert and take", sum, start)?;
    let start = Instant::now(rt)?;
    let sum = rerank_all(rt.alloc(), rounds)?;
    report(rt, "heap rerank", sum, start)
}

// How many rounds the first argument asks for, or one.
fn rounds_of(rt: &HostRuntime) -> anyhow::Result<u32> {
    match env::args(rt)?.nth(1) {
        Some(text) => Ok(text.as_str().parse::<u32>()?),
        None => Ok(1),
    }
}

fn run(rt: &HostRuntime) -> anyhow::Result<()> {
    let rounds = rounds_of(rt)?;
    time_table(rt, rounds)?;
    time_index(rt, rounds)?;
    time_heap(rt, rounds)
}

fn main(rt: HostRuntime) -> anyhow::Result<()> {
    run(&rt)
}
