// The filter on examples.
use digest::Md5;
use filter::{CountingFilter, FilterSize, OtherSize, Receipt, Summary};
use std::test::Fail;

// The size of so many positions, which a filter may have.
fn sized(positions: u32) -> Result<FilterSize, Fail> {
    match FilterSize::new(positions) {
        Some(size) => Ok(size),
        None => Err(Fail::new("a filter may not have so many positions")),
    }
}

#[test]
fn summary_of_abc(rt: HostRuntime) -> Result<(), Fail> {
    let size = sized(64)?;
    let abc = Receipt::of(&Md5, size, b"abc");
    assert_eq!(rt; abc.positions(), [24, 48, 61, 50]);
    let mut filter = CountingFilter::new(rt.alloc(), size)?;
    filter.raise(&abc);
    let mut summary = Summary::new(rt.alloc(), size)?;
    assert_eq!(rt; summary.has(&abc), false);
    assert_eq!(rt; summary.summarize(&filter), Ok(()));
    assert_eq!(rt; summary.octets(), [0, 0, 0, 1, 0, 0, 5, 0x20].as_slice());
    assert_eq!(rt; summary.ones(), 4);
    assert_eq!(rt; summary.has(&abc), true);
    assert_eq!(rt; summary.has(&Receipt::of(&Md5, size, b"abd")), false);
    Ok(())
}

#[test]
fn counter_sticks_at_fifteen(rt: HostRuntime) -> Result<(), Fail> {
    let size = sized(64)?;
    let abc = Receipt::of(&Md5, size, b"abc");
    let mut filter = CountingFilter::new(rt.alloc(), size)?;
    for _ in 0..14 {
        filter.raise(&abc);
    }
    filter.lower(&abc);
    assert_eq!(rt; filter.counter(24), Some(13));
    filter.raise(&abc);
    filter.raise(&abc);
    filter.lower(&abc);
    assert_eq!(rt; filter.counter(24), Some(15));
    assert_eq!(rt; filter.counter(25), Some(0));
    assert_eq!(rt; filter.counter(64), None);
    Ok(())
}

#[test]
fn doubled_position_counts_once(rt: HostRuntime) -> Result<(), Fail> {
    let size = sized(64)?;
    let map = Receipt::of(&Md5, size, b"map 9");
    assert_eq!(rt; map.positions(), [60, 26, 63, 60]);
    let mut filter = CountingFilter::new(rt.alloc(), size)?;
    filter.raise(&map);
    assert_eq!(rt; filter.counter(60), Some(1));
    filter.lower(&map);
    assert_eq!(rt; filter.counter(60), Some(0));
    Ok(())
}

#[test]
fn sizes(rt: HostRuntime) -> Result<(), Fail> {
    for m in [0, 8, 56, 63, 65, 65535, 65537, 65544, 4294967288] {
        assert_eq!(rt; FilterSize::new(m), None);
    }
    for m in [64, 72, 4096, 65528, 65536] {
        assert_eq!(rt; sized(m)?.positions(), m);
    }
    Ok(())
}

#[test]
fn differences_of_summaries(rt: HostRuntime) -> Result<(), Fail> {
    let size = sized(64)?;
    let large = sized(72)?;
    let mut filter = CountingFilter::new(rt.alloc(), size)?;
    let empty = Summary::new(rt.alloc(), size)?;
    filter.raise(&Receipt::of(&Md5, size, b"map 9"));
    let mut one = Summary::new(rt.alloc(), size)?;
    assert_eq!(rt; one.summarize(&filter), Ok(()));
    assert_eq!(rt; one.differences(&empty), Some(3));
    assert_eq!(rt; one.differences(&one), Some(0));
    let mut other = Summary::new(rt.alloc(), large)?;
    assert_eq!(rt; other.differences(&one), None);
    assert_eq!(rt; other.summarize(&filter), Err(OtherSize));
    assert_eq!(rt; other.ones(), 0);
    Ok(())
}
