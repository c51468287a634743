// How a cipher refuses.
ghost use Rattle.std.specs.Prelude.{◌≡◌};
ghost use Rattle.cipher.specs.Refusals.{refusal_of};

use refusal::Refusal;

#[derive(Clone, Copy, PartialEq, Eq, Debug)]
pub enum CipherFault {
    // The place is the value's place in a deck, and 0 for a value that stands alone.
    NotValue { place: usize, value: u32 },
    NoCard(u8),
    UnlawfulKey(u32),
}

impl From<CipherFault> for Refusal {
    ghost from_gives = { λ fault r. r ≡ refusal_of fault };

    fn from(fault: CipherFault) -> Refusal {
        match fault {
            CipherFault::NotValue { place, value } => {
                Refusal::with_both(5, place as u64, u64::from(value))
            }
            CipherFault::NoCard(card) => Refusal::with(14, u64::from(card)),
            CipherFault::UnlawfulKey(key) => Refusal::with(16, u64::from(key)),
        }
    }
}
