// A queue begun.
ghost use Rattle.std.specs.Prelude.{◌≡◌, ◌<◌, ◌≤◌, [], length, take, Decides, MatchOption, MatchResult};
ghost use Rattle.filter.specs.Positions.{Sized};
ghost use Rattle.channel.specs.Letters.{room};
ghost use Rattle.channel.specs.Slots.{Measured};
ghost use Rattle.channel.specs.Queues.{Unbegun, queued, NoneFor, FirstFor, TakenAt};

use super::Queue;
use crate::checks::room;
use crate::memory::SLOTS;
use crate::refusals::ChannelFault;
use crate::slot::Slot;
use filter::FilterSize;

impl Queue {
    // A queue over 32 slots in which nothing waits. A refusal hands the slots back as they were.
    pub fn new(m: u32, slots: Vec<Slot>) -> Result<Queue, (ChannelFault, Vec<Slot>)>
        ensures { MatchResult result (λ q. Sized m × Measured m slots.items × (q.size.positions ≡ m) × (queued q ≡ [])) (λ e. Unbegun e.0 m slots.items × (e.1 ≡ slots)) }
    {
        let Some(size) = FilterSize::new(m) else {
            return Err((ChannelFault::Positions, slots));
        };
        if !are_measured(size, &slots) {
            return Err((ChannelFault::Length, slots));
        }
        Ok(Queue {
            size,
            slots,
            count: 0,
        })
    }

    // The place of the first letter for a house.
    pub(super) fn first_for(&self, house: u32) -> Option<usize>
        ensures { MatchOption result (NoneFor house (queued self.now)) (λ place. FirstFor house (queued self.now) place) }
    {
        let waiting = &self.slots[..self.count];
        waiting.iter().position(|slot| slot.house() == house)
    }

    // Takes the letter at a place out into a buffer, and answers its length.
    pub(super) fn take_at(&mut self, place: usize, buffer: &mut [u8]) -> usize
        requires { (place < length (queued self.old)) × (room self.old.size.positions ≤ length buffer.old) }
        ensures { (result ≤ length buffer.old) × (self.new.size ≡ self.old.size) × TakenAt (queued self.old) place (take result buffer.new) (queued self.new) }
    {
        let slot = self.slots.remove(place);
        let len = slot.copy_to(buffer);
        self.slots.push_reserved(slot);
        self.count -= 1;
        len
    }
}

// Whether there are 32 slots, each as large as the largest message.
fn are_measured(size: FilterSize, slots: &[Slot]) -> bool
    ensures { Decides result (Measured size.positions slots.now) }
{
    let all_there = slots.len() == SLOTS;
    all_there && slots.iter().all(|slot| slot.space() == room(size))
}
