// What a player does to a deck: seats that lock and shuffle, whatever they hold.
#![tactic(auto)]

pub mod any;
pub mod fault;
pub mod generator;
pub mod keyed;
mod locks;
pub mod seats;

ghost use Rattle.std.specs.Prelude.{◌≡◌, ◌≤◌, true, length, replicate};
ghost use Rattle.cipher.specs.Decks.{locked_deck};
ghost use Rattle.permutation.specs.Permutation.{permutes};
ghost use Rattle.seat.specs.Seat.{SeatMeaning, SeatLaws};
ghost use Rattle.seat.specs.Answers.{order_answer, lock_answer, unlock_answer, filled};

use cipher::{Cipher, unlock};
use fault::SeatFault;
use locks::lock_deck;
use permutation::MOST_CARDS;

pub trait Seat {
    ghost meaning: { Self → SeatMeaning };

    // How many cards the seat plays with.
    fn size(&self) -> u8
        ensures { result ≡ (meaning self.now).size };

    // The key of the seat under the cipher. It may be unlawful: that shows at the lock.
    fn key<C: Cipher>(&self, cipher: &C) -> u32
        ensures { result ≡ (meaning self.now).key (C.Cipher.meaning cipher.now) };

    // Writes the seat's order to the target, or blanks if the target's length is not the size.
    fn order(&self, target: &mut [u8]) -> Result<(), SeatFault>
        ensures answer { result ≡ order_answer (meaning self.now).size (length target.old) }
        ensures written { target.new ≡ filled result (meaning self.now).order 255 (length target.old) };

    // Locks a deck into the target: at each place the value at the place that the order holds
    // there, locked under the key. Refused, it leaves a target of blanks.
    fn lock<C: Cipher>(&self, cipher: &C, deck: &[u32], target: &mut [u32]) -> Result<(), SeatFault>
        ensures answer { result ≡ lock_answer (C.Cipher.meaning cipher.now) (meaning self.now) deck.now (length target.old) }
        ensures written { target.new ≡ filled result (locked_deck (C.Cipher.meaning cipher.now) ((meaning self.now).key (C.Cipher.meaning cipher.now)) (meaning self.now).order deck.now) 0 (length target.old) }
    {
        // No lock wants memory, so the order has room for any size.
        let mut room = [0; MOST_CARDS];
        let size = usize::from(self.size());
        let order = &mut room[..size];
        self.order(order)?;
        lock_deck(cipher, self.key(cipher), order, deck, target)
    }

    // Takes the seat's lock off one value.
    fn unlock<C: Cipher>(&self, cipher: &C, value: u32) -> Result<u32, SeatFault>
        ensures { result ≡ unlock_answer (C.Cipher.meaning cipher.now) (meaning self.now) value }
    {
        Ok(unlock(cipher, self.key(cipher), value)?)
    }

    ghost seated: { (s : Self) → SeatLaws (meaning s) };
}
