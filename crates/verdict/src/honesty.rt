// Whether a lock, a share or a show is what the disclosed keys and orders make it.
ghost use Rattle.std.specs.Prelude.{◌≡◌, ◌<◌};
ghost use Rattle.table.specs.Model.{state_of_record};
ghost use Rattle.verdict.specs.Tables.{told_of};
ghost use Rattle.verdict.specs.Honesty.{honest_share, honest_show};
ghost use Rattle.verdict.specs.Forward.{honest_place_after, honest_lock_after};

use crate::hearing::Hearing;
use cipher::{Cipher, unlock};

impl<C: Cipher> Hearing<'_, C> {
    // Whether a lock entered at a place what it takes from the deck before it, under the key.
    fn honest_place(&self, key: u32, locks: u16, seat: u8, place: u8) -> bool
        requires { place < self.now.record.now.cards }
        ensures { result ≡ honest_place_after (C.Cipher.meaning self.now.cipher.now) (state_of_record self.now.record.now) key locks seat place }
    {
        let before = self.deck_value(locks, self.order_value(seat, place));
        let due = self.cipher.lock(key, before);
        due == Ok(self.entered_value(locks, place))
    }

    // Whether the deck of a lock is the one before it, shuffled by the seat's order and locked
    // under its key.
    pub(crate) fn honest_lock(&self, locks: u16, seat: u8) -> bool
        ensures { result ≡ honest_lock_after (C.Cipher.meaning self.now.cipher.now) (state_of_record self.now.record.now) locks seat }
    {
        let key = self.key_of(seat);
        (0..self.record.cards).all(|place| self.honest_place(key, locks, seat, place))
    }

    // Whether a share is the chain value with the seat's lock taken off.
    pub(crate) fn honest_share(&self, seat: u8, chain: u32, value: u32) -> bool
        ensures { result ≡ honest_share (C.Cipher.meaning self.now.cipher.now) ((told_of (state_of_record self.now.record.now)).key seat) chain value }
    {
        unlock(self.cipher, self.key_of(seat), chain) == Ok(value)
    }

    // Whether the chain value with the drawer's lock taken off is the card's code.
    pub(crate) fn honest_show(&self, seat: u8, chain: u32, card: u8) -> bool
        ensures { result ≡ honest_show (C.Cipher.meaning self.now.cipher.now) ((told_of (state_of_record self.now.record.now)).key seat) chain card }
    {
        let opened = unlock(self.cipher, self.key_of(seat), chain);
        self.cipher.code(card).is_ok_and(|code| opened == Ok(code))
    }
}
