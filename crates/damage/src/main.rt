// Opens damaged messages: good ones are written, changed at random, and opened in every way. Prints how each refusal came out, and a digest of all answers.
#![tactic(auto)]

mod answers;
mod catalogue;
mod damages;
mod random;

use answers::Answers;
use anyhow::anyhow;
use catalogue::Catalogue;
use damages::damage;
use filter::FilterSize;
use hexadecimal::hex;
use opening::Opener;
use random::Random;
use std::alloc::Global;

// How many messages are damaged, and after how many a line is printed.
const MESSAGES: u32 = 14000;

const LINE: u32 = 1000;

// The opener, and the catalogue whose messages it gets.
#[derive(Drop)]
struct Trial {
    opener: Opener,
    catalogue: Catalogue,
}

impl Trial {
    // House 2 of 4, with filters of so many positions.
    fn new(heap: Global, positions: u32) -> anyhow::Result<Trial> {
        let Some(size) = FilterSize::new(positions) else {
            return Err(anyhow!("a filter cannot have so many positions"));
        };
        Ok(Trial {
            opener: Opener {
                number: 2,
                count: 4,
                size,
            },
            catalogue: Catalogue::new(heap, size)?,
        })
    }

    // Writes a message, damages it and opens it in every way.
    fn turn(&mut self, random: &mut Random, answers: &mut Answers) -> anyhow::Result<()> {
        let mut message = self.catalogue.message(random)?;
        damage(&mut message, random)?;
        answers.open(
            &self.opener,
            self.catalogue.request,
            self.catalogue.name.as_slice(),
            message.as_slice(),
        );
        Ok(())
    }
}

fn run(rt: &HostRuntime) -> anyhow::Result<()> {
    let heap = rt.alloc();
    let mut random = Random::new(20);
    let mut answers = Answers::new();
    let mut small = Trial::new(heap, 64)?;
    let mut large = Trial::new(heap, 1024)?;
    for turn in 0..MESSAGES {
        let trial = if turn % 2 == 0 {
            &mut small
        } else {
            &mut large
        };
        trial.turn(&mut random, &mut answers)?;
        if turn % LINE == LINE - 1 {
            let digest = hex(heap, &answers.digest().to_be_bytes())?;
            let done = turn + 1;
            println!(rt; "{done} messages: {digest}")?;
        }
    }
    for (number, count) in answers.counts().iter().enumerate() {
        if *count > 0 {
            println!(rt; "{number}: {count}")?;
        }
    }
    Ok(())
}

fn main(rt: HostRuntime) -> anyhow::Result<()> {
    run(&rt)
}
