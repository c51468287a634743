// Two seats lock a deck of codes one after the other, and open every place of it.
ghost use Rattle.std.specs.Prelude.{◌≡◌, ◌≤◌, [], ◌∷◌, map, length, Ok, OnOk};
ghost use Rattle.permutation.specs.Permutation.{composed, upto};
ghost use Rattle.seat.specs.Answers.{filled};
ghost use Rattle.shuffle.specs.Shuffle.{Ready, Opens, opened_answer, locked_twice};

use cipher::{Cipher, read_card};
use permutation::blank::Blank;
use permutation::{MOST_CARDS, fill};
use seat::Seat;
use seat::fault::SeatFault;

// The cards 0, 1, 2 and so on, as many as there are places in the target, are locked by the first
// seat and then by the second. What both of them open at each place is the card that the two
// orders, composed, tell. Refused, it leaves a target of blanks.
pub fn opened_cards<C: Cipher, S: Seat, T: Seat>(
    cipher: &C,
    first: &S,
    second: &T,
    cards: &mut [u8],
) -> Result<(), SeatFault>
    ensures answer { result ≡ opened_answer (C.Cipher.meaning cipher.now) (S.Seat.meaning first.now) (T.Seat.meaning second.now) (length cards.old) }
    ensures written { cards.new ≡ filled result (composed (length cards.old) ((S.Seat.meaning first.now).order ∷ (T.Seat.meaning second.now).order ∷ [])) 255 (length cards.old) }
{
    let pair = Pair {
        cipher,
        first,
        second,
    };
    let answer = pair.lock_and_open(cards);
    if answer.is_err() {
        fill(cards, u8::blank());
    }
    answer
}

// Two seats that lock under one cipher, the first seat first.
#[derive(Drop)]
struct Pair<'a, C, S, T> {
    cipher: &'a C,
    first: &'a S,
    second: &'a T,
}

impl<C: Cipher, S: Seat, T: Seat> Pair<'_, C, S, T> {
    fn lock_and_open(&self, cards: &mut [u8]) -> Result<(), SeatFault>
        ensures answer { result ≡ opened_answer (C.Cipher.meaning self.now.cipher.now) (S.Seat.meaning self.now.first.now) (T.Seat.meaning self.now.second.now) (length cards.old) }
        ensures written { OnOk result (cards.new ≡ composed (length cards.old) ((S.Seat.meaning self.now.first.now).order ∷ (T.Seat.meaning self.now.second.now).order ∷ [])) }
    {
        let size = cards.len();
        if size > MOST_CARDS {
            return Err(SeatFault::WrongLength(size));
        }
        // Nothing here wants memory, so a deck has room for any size.
        let mut room = [0; MOST_CARDS];
        let deck = &mut room[..size];
        self.lock_twice(deck)?;
        self.read_cards(deck, cards)
    }

    // Writes the deck of codes, locked by the first seat and then by the second.
    fn lock_twice(&self, deck: &mut [u32]) -> Result<(), SeatFault>
        requires { length deck.old ≤ 52 }
        ensures answer { result ≡ opened_answer (C.Cipher.meaning self.now.cipher.now) (S.Seat.meaning self.now.first.now) (T.Seat.meaning self.now.second.now) (length deck.old) }
        ensures written { OnOk result (deck.new ≡ locked_twice (C.Cipher.meaning self.now.cipher.now) (S.Seat.meaning self.now.first.now) (T.Seat.meaning self.now.second.now) (length deck.old)) }
    {
        let mut room = [0; MOST_CARDS];
        let once = &mut room[..deck.len()];
        write_codes(self.cipher, deck);
        self.first.lock(self.cipher, deck, once)?;
        self.second.lock(self.cipher, once, deck)
    }

    // Writes the card at each place of a deck that both seats have locked.
    fn read_cards(&self, deck: &[u32], cards: &mut [u8]) -> Result<(), SeatFault>
        requires ready { Ready (C.Cipher.meaning self.now.cipher.now) (S.Seat.meaning self.now.first.now) (T.Seat.meaning self.now.second.now) (length cards.old) }
        requires locked { deck.now ≡ locked_twice (C.Cipher.meaning self.now.cipher.now) (S.Seat.meaning self.now.first.now) (T.Seat.meaning self.now.second.now) (length cards.old) }
        ensures answer { result ≡ Ok tt }
        ensures written { cards.new ≡ composed (length cards.old) ((S.Seat.meaning self.now.first.now).order ∷ (T.Seat.meaning self.now.second.now).order ∷ []) }
    {
        for (place, card) in cards.iter_mut().enumerate() {
            *card = self.open_card(deck[place])?.unwrap_or(u8::blank());
        }
        Ok(())
    }

    // The card under the locks of both seats: the first seat takes its lock off, and then the
    // second.
    fn open_card(&self, value: u32) -> Result<Option<u8>, SeatFault>
        ensures { Opens (C.Cipher.meaning self.now.cipher.now) (S.Seat.meaning self.now.first.now) (T.Seat.meaning self.now.second.now) value result }
    {
        let shared = self.first.unlock(self.cipher, value)?;
        let opened = self.second.unlock(self.cipher, shared)?;
        Ok(read_card(self.cipher, opened))
    }
}

// Writes the codes of the cards 0, 1, 2 and so on.
pub(crate) fn write_codes<C: Cipher>(cipher: &C, deck: &mut [u32])
    requires { length deck.old ≤ 52 }
    ensures { deck.new ≡ map (C.Cipher.meaning cipher.now).code (upto (length deck.old)) }
{
    for (card, value) in deck.iter_mut().enumerate() {
        *value = cipher.code(card as u8).unwrap_or(0);
    }
}
