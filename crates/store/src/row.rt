// One row in memory.
ghost use Rattle.std.specs.Prelude.{◌≤◌};

mod methods;

// A record in memory. A row is copied and a store takes no other memory, so the name stands at the front of octets of its own, with its length beside them; the wider numbers stand first, so that a row takes 140 octets.
#[derive(Clone, Copy)]
struct Stored {
    name: [u8; 128],
    size: u32,
    cost: u16,
    len: u8,
    ghost short: { len ≤ 128 },
}

// The record in a row, or none where the row is free.
#[derive(Clone, Copy)]
pub struct Row {
    stored: Option<Stored>,
}

const _: () = prove!(size_of::<Row>() == 140);
