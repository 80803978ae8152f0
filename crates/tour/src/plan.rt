// What the tour is asked to do.
use std::str::FromStr;
use store::Record;

// A word that says nothing of what is wanted.
#[derive(Clone, Copy, PartialEq, Eq, Debug)]
pub struct Unread;

// Which record leaves first.
#[derive(Clone, Copy, PartialEq, Eq, Debug)]
pub enum PolicyChoice {
    Lru,
    GreedyDualSize,
}

impl FromStr for PolicyChoice {
    type Err = Unread;

    fn from_str(word: &str) -> Result<PolicyChoice, Unread> {
        match word {
            "lru" => Ok(PolicyChoice::Lru),
            "greedy-dual-size" => Ok(PolicyChoice::GreedyDualSize),
            _ => Err(Unread),
        }
    }
}

// How rows are found.
#[derive(Clone, Copy, PartialEq, Eq, Debug)]
pub enum StoreChoice {
    Table,
    Index,
}

impl FromStr for StoreChoice {
    type Err = Unread;

    fn from_str(word: &str) -> Result<StoreChoice, Unread> {
        match word {
            "table" => Ok(StoreChoice::Table),
            "index" => Ok(StoreChoice::Index),
            _ => Err(Unread),
        }
    }
}

// The first line: policy, store, places and capacity.
#[derive(Clone, Copy, PartialEq, Eq, Debug)]
pub struct Plan {
    pub policy: PolicyChoice,
    pub store: StoreChoice,
    pub places: usize,
    pub capacity: u32,
}

impl Plan {
    // Reads the first line of a text.
    pub(crate) fn read(text: &str) -> Option<Plan> {
        let mut words = text.lines().next()?.split(' ');
        Some(Plan {
            policy: words.next()?.parse::<PolicyChoice>().ok()?,
            store: words.next()?.parse::<StoreChoice>().ok()?,
            places: words.next()?.parse::<usize>().ok()?,
            capacity: words.next()?.parse::<u32>().ok()?,
        })
    }
}

// A line: size, cost and name; the name as text, and the record.
#[derive(Clone, Copy, PartialEq, Eq, Debug)]
pub struct Line<'t> {
    pub name: &'t str,
    pub record: Record<'t>,
}

impl<'t> Line<'t> {
    pub(crate) fn read(line: &'t str) -> Option<Line<'t>> {
        let mut words = line.splitn(3, ' ');
        let size = words.next()?.parse::<u32>().ok()?;
        let cost = words.next()?.parse::<u16>().ok()?;
        let name = words.next()?;
        let record = Record {
            name: name.as_bytes(),
            size,
            cost,
        };
        Some(Line { name, record })
    }
}
