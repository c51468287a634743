// Every step of a shuffle by two seats, to be shown.
ghost use Rattle.std.specs.Prelude.{◌≡◌, Ok};
ghost use Rattle.shuffle.specs.Steps.{steps_of};

use crate::opening::{opened_cards, write_codes};
use cipher::Cipher;
use permutation::rearrange;
use seat::Seat;
use seat::fault::SeatFault;
use seat::generator::GeneratorSeat;

// How many cards are shuffled.
pub const SIZE: usize = 5;

#[derive(Clone, Copy)]
pub struct Steps {
    pub keys: (u32, u32),
    pub orders: ([u8; SIZE], [u8; SIZE]),
    pub codes: [u32; SIZE],
    // the deck of codes after the first seat
    pub once: [u32; SIZE],
    // and after the second
    pub twice: [u32; SIZE],
    // the card that both seats open at each place
    pub cards: [u8; SIZE],
    // the order of the first seat, rearranged by that of the second
    pub composed: [u8; SIZE],
}

pub fn shuffle_twice<C: Cipher>(cipher: &C) -> Result<Steps, SeatFault>
    ensures { result ≡ Ok (steps_of (C.Cipher.meaning cipher.now)) }
{
    let first = GeneratorSeat::new(1, SIZE as u8)?;
    let second = GeneratorSeat::new(2, SIZE as u8)?;
    let mut orders = ([0; SIZE], [0; SIZE]);
    first.order(&mut orders.0)?;
    second.order(&mut orders.1)?;
    let mut codes = [0; SIZE];
    write_codes(cipher, &mut codes);
    let mut once = [0; SIZE];
    first.lock(cipher, &codes, &mut once)?;
    let mut twice = [0; SIZE];
    second.lock(cipher, &once, &mut twice)?;
    let mut cards = [0; SIZE];
    opened_cards(cipher, &first, &second, &mut cards)?;
    let mut composed = [0; SIZE];
    rearrange(&orders.0, &orders.1, &mut composed)?;
    Ok(Steps {
        keys: (first.key(cipher), second.key(cipher)),
        orders,
        codes,
        once,
        twice,
        cards,
        composed,
    })
}
