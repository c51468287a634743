// The steps of a shuffle as they are told.
ghost use Rattle.std.specs.Fmt.{DisplaysOnOk};
ghost use Rattle.shuffle.specs.Printed.{printed, printed_seat, printed_locks, printed_cards};

use crate::steps::{SIZE, Steps};
use std::fmt;

impl fmt::Display for Steps {
    ghost output = { printed };

    fn fmt<W: fmt::Write>(&self, f: &mut fmt::Formatter<W>) -> fmt::Result {
        show_seat(f, 0, self.keys.0, &self.orders.0)?;
        show_seat(f, 1, self.keys.1, &self.orders.1)?;
        let last = SIZE - 1;
        writeln!(f, "  The codes of cards 0 to {last} are {:?}.", self.codes)?;
        show_locks(f, self)?;
        show_cards(f, self)
    }
}

fn show_seat<W: fmt::Write>(
    f: &mut fmt::Formatter<W>,
    seat: u8,
    key: u32,
    order: &[u8],
) -> fmt::Result
    ensures { DisplaysOnOk W.write_str_gives f.old result (printed_seat seat key order.now) f.new }
{
    writeln!(f, "  Seat {seat} has key {key} and order {order:?}.")
}

fn show_locks<W: fmt::Write>(f: &mut fmt::Formatter<W>, steps: &Steps) -> fmt::Result
    ensures { DisplaysOnOk W.write_str_gives f.old result (printed_locks steps.now) f.new }
{
    writeln!(
        f,
        "  Seat 0 puts them in its order and locks them: {:?}.",
        steps.once
    )?;
    writeln!(f, "  Seat 1 does so with that deck: {:?}.", steps.twice)
}

fn show_cards<W: fmt::Write>(f: &mut fmt::Formatter<W>, steps: &Steps) -> fmt::Result
    ensures { DisplaysOnOk W.write_str_gives f.old result (printed_cards steps.now) f.new }
{
    let alike = if steps.cards == steps.composed {
        "the same"
    } else {
        "not the same"
    };
    writeln!(
        f,
        "  At every place seat 0 takes its lock off, and then seat 1 does."
    )?;
    writeln!(f, "  The cards that are read there are {:?}.", steps.cards)?;
    write!(
        f,
        "  Seat 0's order, rearranged by seat 1's, is {:?}: {alike}.",
        steps.composed
    )
}
