// A call on a table, so that calls can stand in a list.
use std::fmt;

#[derive(Drop)]
pub enum Call {
    Lock { seat: u8, deck: Vec<u32> },
    Draw { seat: u8, place: u8 },
    Share { seat: u8, value: u32 },
    Abandon,
    Close,
    Show { draw: u8, card: u8 },
    Disclose { seat: u8, key: u32, order: Vec<u8> },
}

impl fmt::Display for Call {
    ghost use Rattle.table.specs.Printed.{printed};

    ghost output = { printed };

    fn fmt<W: fmt::Write>(&self, f: &mut fmt::Formatter<W>) -> fmt::Result {
        match self {
            Call::Lock { seat, deck } => write!(f, "Seat {seat} locks {deck:?}"),
            Call::Draw { seat, place } => write!(f, "Seat {seat} draws place {place}"),
            Call::Share { seat, value } => write!(f, "Seat {seat} shares {value}"),
            Call::Abandon => write!(f, "Abandon"),
            Call::Close => write!(f, "Close"),
            Call::Show { draw, card } => write!(f, "Draw {draw} is shown as card {card}"),
            Call::Disclose { seat, key, order } => {
                write!(f, "Seat {seat} discloses key {key} and order {order:?}")
            }
        }
    }
}
