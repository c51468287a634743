// How a seat refuses.
ghost use Rattle.std.specs.Prelude.{◌≡◌};
ghost use Rattle.seat.specs.Refusals.{refusal_of, fault_of_order};
ghost use Rattle.seat.specs.declared.fault.SeatFault.TheVariants.{Cipher as OfCipher};

use cipher::fault::CipherFault;
use permutation::fault::OrderFault;
use refusal::Refusal;

#[derive(Clone, Copy, PartialEq, Eq, Debug)]
pub enum SeatFault {
    // The length of a deck, a target or an order that is not the one due.
    WrongLength(usize),
    NotOrder,
    UnfitGenerator,
    Cipher(CipherFault),
}

impl From<CipherFault> for SeatFault {
    ghost from_gives = { λ e r. r ≡ OfCipher e };

    fn from(fault: CipherFault) -> SeatFault {
        SeatFault::Cipher(fault)
    }
}

impl From<OrderFault> for SeatFault {
    ghost from_gives = { λ fault r. r ≡ fault_of_order fault };

    fn from(fault: OrderFault) -> SeatFault {
        match fault {
            OrderFault::WrongLength(length) => SeatFault::WrongLength(length),
            OrderFault::NotOrder => SeatFault::NotOrder,
        }
    }
}

impl From<SeatFault> for Refusal {
    ghost from_gives = { λ fault r. r ≡ refusal_of fault };

    fn from(fault: SeatFault) -> Refusal {
        match fault {
            SeatFault::WrongLength(length) => Refusal::with(4, length as u64),
            SeatFault::NotOrder => Refusal::alone(17),
            SeatFault::UnfitGenerator => Refusal::with(20, 0),
            SeatFault::Cipher(fault) => Refusal::from(fault),
        }
    }
}
