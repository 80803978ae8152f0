// Channels on examples.
use channel::{Channel, ChannelFault, Dropping, Queue, Repeating, Turning, queue_memory, room};
use fault::Refusal;
use filter::FilterSize;
use std::alloc::Global;
use std::process::Abort;
use std::test::Fail;

// A queue for filters of 64 positions.
fn queue_of_64(heap: Global) -> Result<Queue, Fail> {
    let Some(size) = FilterSize::new(64) else {
        return Err(Fail::new("size"));
    };
    match Queue::new(64, queue_memory(heap, size)?) {
        Ok(queue) => Ok(queue),
        Err(_) => Err(Fail::new("refused")),
    }
}

// The only octet of the message that a house takes, or 0 for none.
fn taken<C: Channel>(rt: &impl Abort, channel: &mut C, house: u32) -> Result<u8, Fail> {
    let mut buffer = [0; 40];
    match channel.take(house, &mut buffer)? {
        Some(len) => {
            assert_eq!(rt; len, 1);
            Ok(buffer[0])
        }
        None => Ok(0),
    }
}

// What house 1 takes after a, b and c were sent to it.
fn four_taken<C: Channel>(rt: &impl Abort, channel: &mut C) -> Result<[u8; 4], Fail> {
    for octet in [b'a', b'b', b'c'] {
        channel.send(1, &[octet])?;
    }
    Ok([
        taken(rt, channel, 1)?,
        taken(rt, channel, 1)?,
        taken(rt, channel, 1)?,
        taken(rt, channel, 1)?,
    ])
}

#[test]
fn refused_calls(rt: HostRuntime) -> Result<(), Fail> {
    let mut queue = queue_of_64(rt.alloc())?;
    let mut buffer = [0; 40];
    assert_eq!(rt; room(queue.size()), 40);
    assert_eq!(rt; queue.send(0, b""), Err(ChannelFault::NoHouse));
    assert_eq!(rt; queue.send(17, b"x"), Err(ChannelFault::NoHouse));
    assert_eq!(rt; queue.send(16, b""), Err(ChannelFault::Octets));
    assert_eq!(rt; queue.send(16, &[0; 41]), Err(ChannelFault::Octets));
    assert_eq!(rt; queue.take(0, &mut buffer), Err(ChannelFault::NoHouse));
    assert_eq!(rt;
        queue.take(1, &mut buffer[0..39]),
        Err(ChannelFault::Octets)
    );
    Ok(())
}

#[test]
fn queue_of_32_messages(rt: HostRuntime) -> Result<(), Fail> {
    let mut queue = queue_of_64(rt.alloc())?;
    let mut buffer = [0; 40];
    assert_eq!(rt; queue.send(16, &[7; 40]), Ok(()));
    for octet in 1..32u8 {
        assert_eq!(rt; queue.send(1 + u32::from(octet) % 2, &[octet]), Ok(()));
    }
    assert_eq!(rt; queue.send(1, b"x"), Err(ChannelFault::Full));
    assert_eq!(rt; queue.take(3, &mut buffer), Ok(None));
    assert_eq!(rt;
        (taken(&rt, &mut queue, 1)?, taken(&rt, &mut queue, 1)?),
        (2, 4)
    );
    assert_eq!(rt;
        (taken(&rt, &mut queue, 2)?, taken(&rt, &mut queue, 2)?),
        (1, 3)
    );
    assert_eq!(rt; queue.take(16, &mut buffer), Ok(Some(40)));
    assert_eq!(rt; buffer, [7; 40]);
    Ok(())
}

#[test]
fn refused_queues(rt: HostRuntime) -> Result<(), Fail> {
    let Some(size) = FilterSize::new(128) else {
        return Err(Fail::new("size"));
    };
    let Err((odd, memory)) = Queue::new(65, queue_memory(rt.alloc(), size)?) else {
        return Err(Fail::new("65 positions"));
    };
    let Err((short, _)) = Queue::new(64, memory) else {
        return Err(Fail::new("memory of another length"));
    };
    assert_eq!(rt; (odd.fault().number, short.fault().number), (2, 3));
    Ok(())
}

#[test]
fn dropped(rt: HostRuntime) -> Result<(), Fail> {
    let mut never = Dropping::new(queue_of_64(rt.alloc())?, 0);
    let mut every = Dropping::new(queue_of_64(rt.alloc())?, 1);
    let mut second = Dropping::new(queue_of_64(rt.alloc())?, 2);
    assert_eq!(rt; second.send(0, b"x"), Err(ChannelFault::NoHouse));
    assert_eq!(rt; four_taken(&rt, &mut never)?, *b"abc\0");
    assert_eq!(rt; four_taken(&rt, &mut every)?, [0; 4]);
    assert_eq!(rt; four_taken(&rt, &mut second)?, *b"ac\0\0");
    Ok(())
}

#[test]
fn repeated(rt: HostRuntime) -> Result<(), Fail> {
    let mut never = Repeating::new(queue_of_64(rt.alloc())?, 0);
    let mut every = Repeating::new(queue_of_64(rt.alloc())?, 1);
    let mut second = Repeating::new(queue_of_64(rt.alloc())?, 2);
    assert_eq!(rt; second.send(1, b""), Err(ChannelFault::Octets));
    assert_eq!(rt; four_taken(&rt, &mut never)?, *b"abc\0");
    assert_eq!(rt; four_taken(&rt, &mut every)?, *b"aabb");
    assert_eq!(rt; four_taken(&rt, &mut second)?, *b"abbc");
    Ok(())
}

#[test]
fn turned(rt: HostRuntime) -> Result<(), Fail> {
    let mut never = Turning::new(queue_of_64(rt.alloc())?, 0);
    let mut every = Turning::new(queue_of_64(rt.alloc())?, 1);
    let mut second = Turning::new(queue_of_64(rt.alloc())?, 2);
    assert_eq!(rt; second.take(1, &mut []), Err(ChannelFault::Octets));
    assert_eq!(rt; four_taken(&rt, &mut never)?, *b"abc\0");
    assert_eq!(rt; four_taken(&rt, &mut every)?, *b"bac\0");
    assert_eq!(rt; four_taken(&rt, &mut second)?, *b"acb\0");
    Ok(())
}

#[test]
fn layers_in_a_pile(rt: HostRuntime) -> Result<(), Fail> {
    let lossy = Dropping::new(queue_of_64(rt.alloc())?, 3);
    let mut pile = Turning::new(Repeating::new(lossy, 2), 2);
    assert_eq!(rt;
        four_taken(&rt, &mut pile)?,
        *b"acb\0",
        "the second b was lost"
    );
    Ok(())
}
