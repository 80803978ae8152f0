// A tour of the library: a small cache that admits the records on standard input and evicts what must leave.
#![tactic(auto)]

mod cache;
mod plan;
mod probing;

use anyhow::Context;
use cache::Cache;
use eviction::{GreedyDualSize, Lru, Policy};
use fault::Refusal;
use plan::{Line, Plan, PolicyChoice, StoreChoice};
use probing::Probing;
use std::io::Read;
use store::{CELLS, Cell, HashedIndex, Row, StoreFault, Table};

// Admits each record, and prints what became of it and, at the end, of the cache.
fn serve<P: Policy + Drop, S: Probing + Drop>(
    rt: &HostRuntime,
    plan: &Plan,
    policy: P,
    store: S,
    text: &str,
) -> anyhow::Result<()> {
    let heap = rt.alloc();
    let mut cache = Cache::new(heap, plan, policy, store)?;
    for line in text.lines().skip(1) {
        match Line::read(line) {
            Some(line) => cache.admit(rt, &line)?,
            None => println!(rt; "unread {line}")?,
        }
    }
    cache.show(rt)
}

// Prints why a store did not begin.
fn refused(rt: &HostRuntime, refusal: StoreFault) -> anyhow::Result<()> {
    let fault = refusal.fault();
    println!(rt; "refused {fault}")?;
    Ok(())
}

// The cache over the store that the plan asks for: here, and in `run`, a word becomes a type.
fn with_policy<P: Policy + Drop>(
    rt: &HostRuntime,
    plan: &Plan,
    policy: P,
    text: &str,
) -> anyhow::Result<()> {
    let mut rows = vec![in rt.alloc(); Row::free(); plan.places]?;
    match plan.store {
        StoreChoice::Table => match Table::new(plan.places, rows.as_mut_slice()) {
            Ok(table) => serve(rt, plan, policy, table, text),
            Err((refusal, _)) => refused(rt, refusal),
        },
        StoreChoice::Index => {
            let mut cells = vec![in rt.alloc(); Cell::Never; CELLS]?;
            match HashedIndex::new(plan.places, rows.as_mut_slice(), cells.as_mut_slice()) {
                Ok(index) => serve(rt, plan, policy, index, text),
                Err((refusal, _, _)) => refused(rt, refusal),
            }
        }
    }
}

fn run(rt: &HostRuntime) -> anyhow::Result<()> {
    let mut text = String::new(rt.alloc());
    rt.stdin().read_to_string(&mut text)?;
    let text = text.as_str();
    let plan = Plan::read(text).context("the first line gives policy, store, places and capacity")?;
    match plan.policy {
        PolicyChoice::Lru => with_policy(rt, &plan, Lru::new(), text),
        PolicyChoice::GreedyDualSize => with_policy(rt, &plan, GreedyDualSize::new(), text),
    }
}

fn main(rt: HostRuntime) -> anyhow::Result<()> {
    run(&rt)
}
