// Records, and which may be held.
ghost use Rattle.std.specs.Prelude.{Decides};
ghost use Rattle.store.specs.Contents.{Good, GoodName, GoodWorth};
ghost use Rattle.store.specs.Rows.{given};

// A catalogue record: its name, its size in octets and what it costs to fetch again.
#[derive(Clone, Copy, PartialEq, Eq, Debug)]
pub struct Record<'n> {
    pub name: &'n [u8],
    pub size: u32,
    pub cost: u16,
}

impl Record<'_> {
    // Whether the record may be held.
    pub fn is_good(self) -> bool
        ensures { Decides result (Good (given self.entry)) }
    {
        good_name(self.name) && good_worth(self.size, self.cost)
    }
}

// Whether a name has 1 to 128 octets, none of them zero.
pub fn good_name(name: &[u8]) -> bool
    ensures { Decides result (GoodName name.now) }
{
    (1..=128).contains(&name.len()) && !name.contains(&0)
}

// Whether a size is 1 to 16,777,216 and a cost 1 to 65,535.
pub fn good_worth(size: u32, cost: u16) -> bool
    ensures { Decides result (GoodWorth size cost) }
{
    (1..=16777216).contains(&size) && 1 <= cost
}
