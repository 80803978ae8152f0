// Memory for one message.
ghost use Rattle.std.specs.Prelude.{◌≤◌, vec_len};

mod methods;

// A house, and a message at the front of the octets, with its length beside them: the octets are made once, and a `Vec` with the message's length would take it octet by octet where nothing may be allocated.
#[derive(Drop)]
pub struct Slot {
    to: u32,
    len: usize,
    octets: Vec<u8>,
    ghost short: { len ≤ vec_len octets },
}
