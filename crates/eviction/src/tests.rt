use crate::{Entry, EvictionHeap, GreedyDualSize, Lru, Policy, Stamp, Worth, evict_least};

fn place_of<R: Copy>(entry: Option<Entry<R>>) -> Option<usize> {
    entry.map(|e| e.place)
}

// Inserts an entry for each rank, while there is room.
fn insert_all<R: Ord + Copy>(heap: &mut EvictionHeap, entries: &mut [Entry<R>], ranks: &[R]) {
    for (place, rank) in ranks.iter().enumerate() {
        let _ = heap.insert(entries, Entry { rank: *rank, place });
    }
}

#[test]
fn worth_of_a_record(rt: HostRuntime) {
    let mut policy = GreedyDualSize::new();
    assert_eq!(rt; policy.rank(1, 3, 2).h, 43690);
    assert_eq!(rt; policy.rank(1, 0, 9).h, 0);
    policy.tell(Worth { h: 100, stamp: 1 });
    policy.tell(Worth { h: 50, stamp: 2 });
    assert_eq!(rt; policy.rank(3, 65536, 1).h, 101);
    let most = 1 << 62;
    policy.tell(Worth {
        h: most - 1,
        stamp: 4,
    });
    assert_eq!(rt; policy.rank(5, 65536, 1).h, most);
    assert_eq!(rt; policy.rank(5, 65536, 2).h, most);
}

#[test]
fn oldest_leaves_first(rt: HostRuntime) {
    let mut policy = Lru::new();
    let mut heap = EvictionHeap::new();
    let mut entries = [Entry {
        rank: Stamp(0),
        place: 0,
    }; 3];
    insert_all(
        &mut heap,
        &mut entries,
        &[Stamp(9), Stamp(3), Stamp(5), Stamp(1)],
    );
    assert_eq!(rt; heap.len(&entries), 3);
    assert_eq!(rt;
        place_of(heap.rerank(&mut entries, 1, policy.rank(10, 7, 7))),
        Some(1)
    );
    assert_eq!(rt; place_of(heap.rerank(&mut entries, 3, Stamp(11))), None);
    assert_eq!(rt; place_of(heap.peek(&entries)), Some(2));
    assert_eq!(rt; place_of(heap.remove(&mut entries, 0)), Some(0));
    assert_eq!(rt;
        place_of(evict_least(&mut policy, &mut heap, &mut entries)),
        Some(2)
    );
    assert_eq!(rt; place_of(heap.take_least(&mut entries)), Some(1));
    assert_eq!(rt; place_of(heap.take_least(&mut entries)), None);
}

#[test]
fn cheapest_leaves_first(rt: HostRuntime) {
    let mut policy = GreedyDualSize::new();
    let mut heap = EvictionHeap::new();
    let mut entries = [Entry {
        rank: Worth { h: 0, stamp: 0 },
        place: 0,
    }; 3];
    insert_all(
        &mut heap,
        &mut entries,
        &[
            policy.rank(1, 4, 1),
            policy.rank(2, 8, 1),
            policy.rank(3, 8, 1),
        ],
    );
    assert_eq!(rt;
        place_of(evict_least(&mut policy, &mut heap, &mut entries)),
        Some(1)
    );
    assert_eq!(rt; policy.rank(4, 8, 0).h, 8192);
}
