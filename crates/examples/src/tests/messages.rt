// Messages on examples.
use digest::Md5;
use filter::{CountingFilter, FilterSize, Receipt, Summary};
use icp::{
    Answer, AnswerKind, Change, MessageFault, Query, Reply, ReplyKind, write_declaration,
    write_whole,
};
use opening::{Opener, UpdateKind};
use std::alloc::Global;
use std::process::Abort;
use std::test::Fail;

// House 2 of 3.
fn opener(positions: u32) -> Result<Opener, Fail> {
    let Some(size) = FilterSize::new(positions) else {
        return Err(Fail::new("a filter of this size"));
    };
    Ok(Opener {
        number: 2,
        count: 3,
        size,
    })
}

// A summary with nothing but abc.
fn summary_of_abc(rt: &impl Abort, heap: Global, size: FilterSize) -> Result<Summary, Fail> {
    let mut filter = CountingFilter::new(heap, size)?;
    let mut summary = Summary::new(heap, size)?;
    filter.raise(&Receipt::of(&Md5, size, b"abc"));
    assert!(rt; summary.summarize(&filter).is_ok());
    Ok(summary)
}

// A list of house 3 to version 7, with one entry: position 63 becomes 1.
const LIST: &[u8; 36] =
    b"\x14\x02\x00\x24\x00\x00\x00\x07\x00\x00\x00\x00\x00\x00\x00\x06\x00\x00\x00\x03\x00\x04\x00\x20\x00\x00\x00\x40\x00\x00\x00\x01\x80\x00\x00\x3f";

// A whole of house 1 at version 1, with nothing but abc.
const WHOLE: &[u8; 40] =
    b"\x1e\x02\x00\x28\x00\x00\x00\x01\x00\x00\x00\x00\x00\x00\x00\x00\x00\x00\x00\x01\x00\x04\x00\x20\x00\x00\x00\x40\x00\x00\x00\x00\x00\x00\x00\x01\x00\x00\x05\x20";

#[test]
fn whole_of_abc(rt: HostRuntime) -> Result<(), Fail> {
    let house = opener(64)?;
    let empty = Summary::new(rt.alloc(), house.size)?;
    let summary = summary_of_abc(&rt, rt.alloc(), house.size)?;
    let mut out = [7; 40];
    assert_eq!(rt; write_declaration(1, 0, &empty, &summary, &mut out), Ok(40));
    let written = &WHOLE[..];
    assert_eq!(rt; &out[..], written);
    let Ok(update) = house.open_update(&out) else {
        return Err(Fail::new("the whole is opened"));
    };
    assert_eq!(rt; update.kind(), UpdateKind::Whole);
    assert_eq!(rt; (update.sender(), update.version()), (1, 1));
    assert_eq!(rt; update.rest(), &written[32..40]);
    Ok(())
}

#[test]
fn refused_writing(rt: HostRuntime) -> Result<(), Fail> {
    let house = opener(64)?;
    let abc = summary_of_abc(&rt, rt.alloc(), house.size)?;
    let mut out = [7; 39];
    let last = write_declaration(1, 4294967295, &abc, &abc, &mut out);
    assert_eq!(rt; last, Err(MessageFault::LastVersion { house: 1 }));
    let short = write_declaration(1, 0, &abc, &abc, &mut out);
    assert_eq!(rt; short, Err(MessageFault::Output { house: 1 }));
    let none = write_whole(1, 0, &abc, &mut out);
    assert_eq!(rt; none, Err(MessageFault::NothingDeclared { house: 1 }));
    Ok(())
}

#[test]
fn list_of_one(rt: HostRuntime) -> Result<(), Fail> {
    let house = opener(64)?;
    let Ok(update) = house.open_update(LIST) else {
        return Err(Fail::new("the list is opened"));
    };
    assert_eq!(rt; update.kind(), UpdateKind::Changes);
    let change = Change {
        position: 63,
        value: true,
    };
    assert_eq!(rt; update.entry(0), Some(change));
    assert_eq!(rt; update.entry(1), None);
    let mut changes = update.changes();
    assert_eq!(rt; changes.next(), Some(change));
    assert_eq!(rt; changes.next(), None);
    Ok(())
}

#[test]
fn call_for_whole(rt: HostRuntime) -> Result<(), Fail> {
    let house = opener(64)?;
    let mut out = [9; 21];
    let answer = Answer {
        kind: AnswerKind::CallForWhole,
        sender: 3,
        held: 258,
        owner: 2,
    };
    assert_eq!(rt; answer.write(&mut out), Ok(20));
    assert_eq!(rt;
        &out[..],
        b"\x20\x02\x00\x14\x00\x00\x01\x02\x00\x00\x00\x00\x00\x00\x00\x02\x00\x00\x00\x03\x09".as_slice()
    );
    assert_eq!(rt; house.open_answer(&out[0..20]), Ok(answer));
    Ok(())
}

#[test]
fn query_about_atlas(rt: HostRuntime) -> Result<(), Fail> {
    let house = opener(64)?;
    let mut out = [0; 30];
    let name = b"atlas";
    let query = Query {
        sender: 1,
        request: 5,
        name,
    };
    assert_eq!(rt;
        query.write(&mut [0; 29]),
        Err(MessageFault::Output { house: 1 })
    );
    assert_eq!(rt; query.write(&mut out), Ok(30));
    assert_eq!(rt; &out[20..30], b"\x00\x00\x00\x01atlas\x00".as_slice());
    assert_eq!(rt; house.open_query(&out), Ok(query));
    Ok(())
}

#[test]
fn reply_about_atlas(rt: HostRuntime) -> Result<(), Fail> {
    let house = opener(64)?;
    let mut out = [0; 26];
    let name = b"atlas";
    let reply = Reply {
        kind: ReplyKind::Miss,
        sender: 1,
        request: 5,
        name,
    };
    assert_eq!(rt; reply.write(&mut out), Ok(26));
    let other = MessageFault::Reply { house: 2 };
    let unnamed = MessageFault::Name { house: 2 };
    assert_eq!(rt; house.open_reply(5, name, &out), Ok(reply));
    assert_eq!(rt; house.open_reply(6, name, &out), Err(other));
    out[20] = 0;
    assert_eq!(rt; house.open_reply(5, name, &out), Err(unnamed));
    Ok(())
}
