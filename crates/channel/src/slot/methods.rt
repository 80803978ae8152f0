// Slots made, filled and read.
ghost use Rattle.std.specs.Prelude.{◌≡◌, ◌≤◌, length, take, IfOk};
ghost use Rattle.channel.specs.Letters.{letter};
ghost use Rattle.channel.specs.Slots.{space, letter_in};

use super::Slot;
use std::alloc::{AllocError, Global};

impl Slot {
    // A slot of so many octets. It is made as a filter is: two lines, and a type with a fact of its own.
    pub fn new(heap: Global, octets: usize) -> Result<Slot, AllocError>
        ensures { IfOk result (λ s. space s ≡ octets) }
    {
        let octets = vec![in heap; 0; octets]?;
        Ok(Slot {
            to: 0,
            len: 0,
            octets,
        })
    }

    // The number of octets.
    pub(crate) fn space(&self) -> usize
        ensures { result ≡ space self.now }
    {
        self.octets.len()
    }

    // The house that the message is for.
    pub(crate) fn house(&self) -> u32
        ensures { result ≡ (letter_in self.now).to }
    {
        self.to
    }

    // Takes a message in.
    pub(crate) fn fill(&mut self, to: u32, message: &[u8])
        requires { length message.now ≤ space self.old }
        ensures { (letter_in self.new ≡ letter to message.now) × (space self.new ≡ space self.old) }
    {
        self.octets.as_mut_slice()[0..message.len()].copy_from_slice(message);
        self.len = message.len();
        self.to = to;
    }

    // Copies the message to the front of a buffer, and answers its length.
    pub(crate) fn copy_to(&self, buffer: &mut [u8]) -> usize
        requires { length (letter_in self.now).octets ≤ length buffer.old }
        ensures { (result ≤ length buffer.old) × (take result buffer.new ≡ (letter_in self.now).octets) }
    {
        let len = self.len;
        buffer[0..len].copy_from_slice(&self.octets[0..len]);
        len
    }
}
