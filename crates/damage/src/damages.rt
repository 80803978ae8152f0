// Messages damaged.
use crate::random::Random;

// The octets that damage puts first: every opcode, and one that is none.
const OPCODES: [u8; 8] = [0, 1, 2, 3, 20, 30, 31, 32];

// What is done to a message.
#[derive(Clone, Copy)]
enum Harm {
    Flip,
    Cut,
    Grow,
    Refill,
    Exchange,
    Opcode,
    End,
}

const HARMS: [Harm; 7] = [
    Harm::Flip,
    Harm::Cut,
    Harm::Grow,
    Harm::Refill,
    Harm::Exchange,
    Harm::Opcode,
    Harm::End,
];

// A place in a message, or 0 where it is empty.
fn place(message: &[u8], random: &mut Random) -> usize {
    random.below(message.len().min(60000) as u32) as usize
}

// Writes an octet at a place, if there is one.
fn set(message: &mut [u8], at: usize, octet: u8) {
    if let Some(place) = message.get_mut(at) {
        *place = octet;
    }
}

// Writes octets from a place on, as far as the message goes.
fn set_from(message: &mut [u8], at: usize, octets: &[u8]) {
    for (octet, new) in message.iter_mut().skip(at).zip(octets) {
        *octet = *new;
    }
}

// Some bits of an octet turn.
fn flip(message: &mut [u8], random: &mut Random) {
    let at = place(message, random);
    let bits = random.octet();
    if let Some(octet) = message.get_mut(at) {
        *octet ^= bits;
    }
}

// Two octets change places.
fn exchange(message: &mut [u8], random: &mut Random) {
    let i = place(message, random);
    let j = place(message, random);
    if i.max(j) < message.len() {
        message.swap(i, j);
    }
}

// A field of four octets becomes a small number.
fn refill(message: &mut [u8], random: &mut Random) {
    let at = 4 * random.below(9) as usize;
    let number = random.below(6).to_be_bytes();
    set_from(message, at, &number);
}

// One damage: a match on the harm drawn, since each harm draws numbers of its own, in this order.
fn hurt(message: &mut Vec<u8>, random: &mut Random) -> anyhow::Result<()> {
    match random.pick(&HARMS) {
        Harm::Flip => flip(message.as_mut_slice(), random),
        Harm::Cut => {
            let less = 1 + random.below(6) as usize;
            let n = message.len();
            message.truncate(n.saturating_sub(less));
        }
        Harm::Grow => {
            for _ in 0..1 + random.below(5) {
                message.push(random.octet())?;
            }
        }
        Harm::Refill => refill(message.as_mut_slice(), random),
        Harm::Exchange => exchange(message.as_mut_slice(), random),
        Harm::Opcode => set(message.as_mut_slice(), 0, random.pick(&OPCODES)),
        Harm::End => {
            let octet = random.octet();
            if let Some(end) = message.last_mut() {
                *end = octet;
            }
        }
    }
    Ok(())
}

// Damages a message up to twice; then, mostly, its length field becomes right again, so that deeper checks are met.
pub(crate) fn damage(message: &mut Vec<u8>, random: &mut Random) -> anyhow::Result<()> {
    for _ in 0..random.below(3) {
        hurt(message, random)?;
    }
    if random.below(4) != 0 {
        let length = (message.len() & 0xffff) as u16;
        set_from(message.as_mut_slice(), 2, &length.to_be_bytes());
    }
    Ok(())
}
