// A commutative cipher over cards: what it means, what it promises, and how it refuses.
#![tactic(auto)]

pub mod fault;

ghost use Rattle.std.specs.Prelude.{◌≡◌};
ghost use Rattle.cipher.specs.Cipher.{CipherMeaning, CipherLaws};
ghost use Rattle.cipher.specs.Decks.{deck_answer};
ghost use Rattle.cipher.specs.Answers.{lock_answer, undo_answer, unlock_answer, code_answer, Reads};

use fault::CipherFault;

// The cards are numbered from 0.
pub const CARDS: u8 = 52;

pub trait Cipher {
    ghost meaning: { Self → CipherMeaning };

    // The value locked under the key. Locking under the undo key takes the lock off again.
    fn lock(&self, key: u32, value: u32) -> Result<u32, CipherFault>
        ensures { result ≡ lock_answer (meaning self.now) key value };

    fn undo_key(&self, key: u32) -> Result<u32, CipherFault>
        ensures { result ≡ undo_answer (meaning self.now) key };

    // The value that stands for a card.
    fn code(&self, card: u8) -> Result<u32, CipherFault>
        ensures { result ≡ code_answer (meaning self.now) card };

    fn is_value(&self, value: u32) -> bool
        ensures { result ≡ (meaning self.now).value value };

    fn is_lawful(&self, key: u32) -> bool
        ensures { result ≡ (meaning self.now).lawful key };

    // The largest lawful key.
    fn last_key(&self) -> u32
        ensures { result ≡ (meaning self.now).last_key };

    // The byte by which a file names the cipher.
    fn mark(&self) -> u8
        ensures { result ≡ (meaning self.now).mark };

    ghost lawful: { (s : Self) → CipherLaws (meaning s) };
}

// The value with the key's lock taken off: locked under the undo key.
pub fn unlock<C: Cipher>(cipher: &C, key: u32, value: u32) -> Result<u32, CipherFault>
    ensures { result ≡ unlock_answer (C.meaning cipher.now) key value }
{
    cipher.lock(cipher.undo_key(key)?, value)
}

// The card whose code the value is. A value that is still under a lock may be the code of
// another card, so only a value with every lock taken off is read.
pub fn read_card<C: Cipher>(cipher: &C, value: u32) -> Option<u8>
    ensures { Reads (C.meaning cipher.now) value result }
{
    (0..CARDS).find(|card| cipher.code(*card) == Ok(value))
}

// Refuses a deck that holds a number which is no value, by the lowest place of such a one.
pub fn check_deck<C: Cipher>(cipher: &C, deck: &[u32]) -> Result<(), CipherFault>
    ensures { result ≡ deck_answer (C.meaning cipher.now) 0 deck.now }
{
    for (place, value) in deck.iter().enumerate() {
        if !cipher.is_value(*value) {
            return Err(CipherFault::NotValue {
                place,
                value: *value,
            });
        }
    }
    Ok(())
}
