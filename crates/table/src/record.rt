// What a table holds, plainly: the moves that were made, and what they have come to.
ghost use Rattle.std.specs.Prelude.{◌≡◌};
ghost use Rattle.table.specs.Phases.{phase_number, phase_after};

#[derive(Clone, Copy, PartialEq, Eq, Debug)]
pub enum Phase {
    Locking,
    Dealing,
    Showdown,
    Audit,
}

impl Phase {
    pub fn number(&self) -> u8
        ensures { result ≡ phase_number self.now }
    {
        match *self {
            Phase::Locking => 0,
            Phase::Dealing => 1,
            Phase::Showdown => 2,
            Phase::Audit => 3,
        }
    }

    // The phase that a close begins.
    pub(crate) fn next(self) -> Phase
        ensures { result ≡ phase_after self }
    {
        match self {
            Phase::Locking => Phase::Dealing,
            Phase::Dealing => Phase::Showdown,
            Phase::Showdown => Phase::Audit,
            Phase::Audit => Phase::Audit,
        }
    }
}

// How far a draw has come.
#[derive(Clone, Copy, PartialEq, Eq, Debug)]
pub enum End {
    Running,
    Dealt,
    Abandoned,
}

#[derive(Clone, Copy, PartialEq, Eq, Debug)]
pub struct DrawRecord {
    pub seat: u8,
    pub place: u8,
    // which seats have shared, and how many
    pub shared: [bool; 8],
    pub shares: u8,
    // the chain value: the last deck's value at the place, and then the last share
    pub value: u32,
    pub end: End,
    pub shown: bool,
}

#[derive(Clone, Copy, PartialEq, Eq, Debug)]
pub struct Disclosure {
    pub seat: u8,
    pub key: u32,
}

// A move that was accepted. Its deck or order stands beside the list of moves.
#[derive(Clone, Copy, PartialEq, Eq, Debug)]
pub enum Event {
    Lock { seat: u8 },
    Draw { seat: u8, place: u8 },
    Share { seat: u8, value: u32 },
    Abandon,
    Close,
    Show { draw: u8, card: u8 },
    Disclose { seat: u8, key: u32 },
}

#[derive(Drop)]
pub struct Record {
    pub seats: u8,
    pub cards: u8,
    pub phase: Phase,
    // how many seats have locked, and their decks one after the other
    pub locked: u8,
    pub decks: Vec<u32>,
    pub draws: Vec<DrawRecord>,
    // the disclosures in the order in which they came, and their orders one after the other
    pub disclosures: Vec<Disclosure>,
    pub orders: Vec<u8>,
    pub moves: Vec<Event>,
}
