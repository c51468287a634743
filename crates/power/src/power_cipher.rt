// The power cipher: keys are exponents.
ghost use Rattle.std.specs.Prelude.{◌≡◌, if◌then◌else◌, Some, None};
ghost use Rattle.power.specs.PowerCipher.{power_cipher};
ghost use Rattle.power.specs.Laws.{power_laws};

use crate::arithmetic::{invert, raise};
use cipher::fault::CipherFault;
use cipher::{CARDS, Cipher};
use field::Field;

#[derive(Clone, Copy)]
pub struct PowerCipher<F> {
    pub field: F,
}

impl<F: Field> PowerCipher<F> {
    // The undo key of a lawful key.
    fn undone_by(&self, key: u32) -> Option<u32>
        ensures { let m = power_cipher (F.meaning self.now.field) in result ≡ (if m.lawful key then Some (m.undo key) else None) }
    {
        let order = self.field.order();
        if key >= order {
            return None;
        }
        invert(key, order)
    }
}

impl<F: Field> Cipher for PowerCipher<F> {
    ghost meaning = { λ s. power_cipher (F.meaning s.field) };

    ghost lawful = { λ s. power_laws (F.meaning s.field) (F.lawful s.field) };

    fn lock(&self, key: u32, value: u32) -> Result<u32, CipherFault> {
        if !self.is_lawful(key) {
            return Err(CipherFault::UnlawfulKey(key));
        }
        if !self.is_value(value) {
            return Err(CipherFault::NotValue { place: 0, value });
        }
        Ok(raise(&self.field, value, key))
    }

    fn undo_key(&self, key: u32) -> Result<u32, CipherFault> {
        self.undone_by(key).ok_or(CipherFault::UnlawfulKey(key))
    }

    fn code(&self, card: u8) -> Result<u32, CipherFault> {
        if card >= CARDS {
            return Err(CipherFault::NoCard(card));
        }
        Ok(raise(&self.field, self.field.base(), u32::from(card) + 1))
    }

    fn is_value(&self, value: u32) -> bool {
        value > 0 && value <= self.field.last()
    }

    fn is_lawful(&self, key: u32) -> bool {
        self.undone_by(key).is_some()
    }

    fn last_key(&self) -> u32 {
        self.field.order() - 1
    }

    fn mark(&self) -> u8 {
        self.field.mark()
    }
}
