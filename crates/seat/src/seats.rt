// The two kinds of seat, and either of them.
mod draws;

ghost use Rattle.std.specs.Prelude.{◌≡◌, length};
ghost use Rattle.seat.specs.Answers.{keyed_answer, told, order_answer, filled};
ghost use Rattle.seat.specs.Generator.{generator_answer};
ghost use Rattle.seat.specs.Kinds.{keyed_meaning, generator_meaning, any_meaning};
ghost use Rattle.seat.specs.Laws.{keyed_laws, drawn_laws, any_laws};

use crate::Seat;
use crate::any::AnySeat;
use crate::fault::SeatFault;
use crate::generator::GeneratorSeat;
use crate::keyed::KeyedSeat;
use cipher::{CARDS, Cipher};
use draws::{LAST_START, drawn_after, next_lawful, shuffle};
use permutation::blank::Blank;
use permutation::{MOST_CARDS, fill, is_permutation};

impl KeyedSeat {
    pub fn new(key: u32, order: Vec<u8>) -> Result<KeyedSeat, SeatFault>
        ensures { told keyed_meaning result ≡ keyed_answer key order.items }
    {
        let length = order.len();
        if !(2..=MOST_CARDS).contains(&length) {
            return Err(SeatFault::WrongLength(length));
        }
        if !is_permutation(&order) {
            return Err(SeatFault::NotOrder);
        }
        Ok(KeyedSeat { key, order })
    }
}

impl Seat for KeyedSeat {
    ghost meaning = { keyed_meaning };

    ghost seated = { keyed_laws };

    fn size(&self) -> u8 {
        self.order.len() as u8
    }

    fn key<C: Cipher>(&self, _cipher: &C) -> u32 {
        self.key
    }

    fn order(&self, target: &mut [u8]) -> Result<(), SeatFault> {
        check_target(self.order.len(), target)?;
        target.copy_from_slice(&self.order);
        Ok(())
    }
}

impl GeneratorSeat {
    pub fn new(start: u32, size: u8) -> Result<GeneratorSeat, SeatFault>
        ensures { told generator_meaning result ≡ generator_answer start size }
    {
        if !(1..=LAST_START).contains(&start) || !(2..=CARDS).contains(&size) {
            return Err(SeatFault::UnfitGenerator);
        }
        Ok(GeneratorSeat { start, size })
    }
}

impl Seat for GeneratorSeat {
    ghost meaning = { generator_meaning };

    ghost seated = { drawn_laws };

    fn size(&self) -> u8 {
        self.size
    }

    fn key<C: Cipher>(&self, cipher: &C) -> u32 {
        next_lawful(cipher, drawn_after(self.start))
    }

    fn order(&self, target: &mut [u8]) -> Result<(), SeatFault> {
        check_target(usize::from(self.size), target)?;
        shuffle(drawn_after(self.start), target);
        Ok(())
    }
}

impl Seat for AnySeat {
    ghost meaning = { any_meaning };

    ghost seated = { any_laws };

    fn size(&self) -> u8 {
        match self {
            AnySeat::Keyed(seat) => seat.size(),
            AnySeat::Generator(seat) => seat.size(),
        }
    }

    fn key<C: Cipher>(&self, cipher: &C) -> u32 {
        match self {
            AnySeat::Keyed(seat) => seat.key(cipher),
            AnySeat::Generator(seat) => seat.key(cipher),
        }
    }

    fn order(&self, target: &mut [u8]) -> Result<(), SeatFault> {
        match self {
            AnySeat::Keyed(seat) => seat.order(target),
            AnySeat::Generator(seat) => seat.order(target),
        }
    }
}

// Refuses a target whose length is not the size, and leaves it blank.
fn check_target(size: usize, target: &mut [u8]) -> Result<(), SeatFault>
    ensures answer { result ≡ order_answer size (length target.old) }
    ensures written { target.new ≡ filled result target.old 255 (length target.old) }
{
    let length = target.len();
    if length != size {
        fill(target, u8::blank());
        return Err(SeatFault::WrongLength(length));
    }
    Ok(())
}
