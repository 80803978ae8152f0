// A small cache: a store, a policy and a heap of ranks.
use crate::plan::{Line, Plan};
use crate::probing::Probing;
use anyhow::{Context, anyhow};
use digest::Md5;
use eviction::{Entry, EvictionHeap, Policy, evict_least};
use fault::Refusal;
use filter::{CountingFilter, FilterSize, Receipt, Summary};
use hexadecimal::hex;
use std::alloc::Global;
use std::str::from_utf8;

// The positions of the filter.
const POSITIONS: u32 = 256;

// A store, and what is kept beside it.
#[derive(Drop)]
pub struct Cache<P: Policy + Drop, S: Probing + Drop> {
    store: S,
    policy: P,
    heap: EvictionHeap,
    entries: Vec<Entry<P::Rank>>,
    filter: CountingFilter,
    size: FilterSize,
    capacity: u64,
    used: u64,
    stamp: u32,
}

impl<P: Policy + Drop, S: Probing + Drop> Cache<P, S> {
    pub(crate) fn new(
        heap: Global,
        plan: &Plan,
        policy: P,
        store: S,
    ) -> anyhow::Result<Cache<P, S>> {
        let size = FilterSize::new(POSITIONS).context("a filter cannot have so many positions")?;
        let blank = Entry {
            rank: policy.rank(0, 1, 1),
            place: 0,
        };
        let entries = vec![in heap; blank; plan.places]?;
        let filter = CountingFilter::new(heap, size)?;
        Ok(Cache {
            store,
            policy,
            heap: EvictionHeap::new(),
            entries,
            filter,
            size,
            capacity: plan.capacity as u64,
            used: 0,
            stamp: 0,
        })
    }

    // A record that is held is used; another is admitted, once there is room for it.
    pub(crate) fn admit(&mut self, rt: &HostRuntime, line: &Line<'_>) -> anyhow::Result<()> {
        let Line { name, record } = *line;
        if !record.is_good() {
            println!(rt; "bad {name}")?;
            return Ok(());
        }
        self.stamp = self.stamp.saturating_add(1);
        let rank = self.policy.rank(self.stamp, record.size, record.cost);
        if let Some(place) = self.store.find(record.name) {
            let _ = self.heap.rerank(self.entries.as_mut_slice(), place, rank);
            println!(rt; "used {name} at {place}")?;
            return Ok(());
        }
        if record.size as u64 > self.capacity {
            println!(rt; "too large {name}")?;
            return Ok(());
        }
        self.make_room(rt, record.size)?;
        self.enter(rt, line)
    }

    // Evicts until a place is free and the size fits.
    fn make_room(&mut self, rt: &HostRuntime, size: u32) -> anyhow::Result<()> {
        for _ in 0..self.store.len() {
            let held = self.heap.len(self.entries.as_slice());
            let free = self.capacity.saturating_sub(self.used);
            if held < self.store.len() && size as u64 <= free {
                return Ok(());
            }
            let evicted = evict_least(
                &mut self.policy,
                &mut self.heap,
                self.entries.as_mut_slice(),
            );
            if let Some(entry) = evicted {
                self.leave(rt, entry.place)?;
            }
        }
        Ok(())
    }

    // The record at a place leaves.
    fn leave(&mut self, rt: &HostRuntime, place: usize) -> anyhow::Result<()> {
        let Some(row) = self.store.row(place) else {
            return Ok(());
        };
        if self.store.remove(place).is_ok() {
            self.used = self.used.saturating_sub(row.size() as u64);
            self.filter.lower(&Receipt::of(&Md5, self.size, row.name()));
            let name = from_utf8(row.name())?;
            println!(rt; "evicted {name} from {place}")?;
        }
        Ok(())
    }

    // A record comes, ranked after what it evicted.
    fn enter(&mut self, rt: &HostRuntime, line: &Line<'_>) -> anyhow::Result<()> {
        let Line { name, record } = *line;
        match self.store.add(record) {
            Ok(place) => {
                let rank = self.policy.rank(self.stamp, record.size, record.cost);
                let _ = self
                    .heap
                    .insert(self.entries.as_mut_slice(), Entry { rank, place });
                self.used = self.used.saturating_add(record.size as u64);
                self.filter
                    .raise(&Receipt::of(&Md5, self.size, record.name));
                match self.store.probes(record.name) {
                    Some(cells) => println!(rt;
                        "admitted {name} at {place}, found after {cells} cells"
                    )?,
                    None => println!(rt; "admitted {name} at {place}")?,
                }
            }
            Err(refusal) => {
                let fault = refusal.fault();
                println!(rt; "refused {name}: {fault}")?;
            }
        }
        Ok(())
    }

    // Prints what is held, and the filter's record.
    pub(crate) fn show(&self, rt: &HostRuntime) -> anyhow::Result<()> {
        let heap = rt.alloc();
        for place in 0..self.store.len() {
            if let Some(row) = self.store.row(place) {
                let name = from_utf8(row.name())?;
                let size = row.size();
                let cost = row.cost();
                println!(rt; "held {place} {size} {cost} {name}")?;
            }
        }
        let mut summary = Summary::new(heap, self.size)?;
        if summary.summarize(&self.filter).is_err() {
            return Err(anyhow!("the summary has another size than the filter"));
        }
        let octets = hex(heap, summary.octets())?;
        let ones = summary.ones();
        let used = self.used;
        println!(rt; "octets {used}")?;
        println!(rt; "summary {octets}")?;
        println!(rt; "ones {ones}")?;
        Ok(())
    }
}
