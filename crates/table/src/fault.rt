// How a table refuses.
ghost use Rattle.std.specs.Prelude.{◌≡◌};
ghost use Rattle.table.specs.Refusals.{refusal_of};
ghost use Rattle.table.specs.declared.fault.TableFault.TheVariants.{NoMemory, Cipher as OfCipher};

use crate::record::Phase;
use cipher::fault::CipherFault;
use refusal::Refusal;
use std::alloc::AllocError;

#[derive(Clone, Copy, PartialEq, Eq, Debug)]
pub enum TableFault {
    NoMemory,
    WrongPhase(Phase),
    NoSeat(u8),
    OtherTurn(u8),
    WrongLength(usize),
    NoPlace(u8),
    PlaceTaken(u8),
    DrawRunning(u8),
    NoDrawRunning,
    OwnShare(u8),
    SecondShare(u8),
    NotDealt(u8),
    AlreadyShown(u8),
    NoCard(u8),
    AlreadyDisclosed(u8),
    NotOrder,
    FewDisclosures(u8),
    OutsideLimits,
    Cipher { seat: u8, fault: CipherFault },
}

impl From<AllocError> for TableFault {
    ghost from_gives = { λ _ r. r ≡ NoMemory };

    fn from(_fault: AllocError) -> TableFault {
        TableFault::NoMemory
    }
}

// A cipher's fault with the seat whose move it was.
#[derive(Clone, Copy)]
pub struct SeatedFault {
    pub seat: u8,
    pub fault: CipherFault,
}

impl From<SeatedFault> for TableFault {
    ghost from_gives = { λ e r. r ≡ OfCipher e.seat e.fault };

    fn from(seated: SeatedFault) -> TableFault {
        TableFault::Cipher {
            seat: seated.seat,
            fault: seated.fault,
        }
    }
}

impl From<TableFault> for Refusal {
    ghost from_gives = { λ fault r. r ≡ refusal_of fault };

    fn from(fault: TableFault) -> Refusal {
        match fault {
            TableFault::NoMemory => Refusal::alone(0),
            TableFault::WrongPhase(phase) => Refusal::with(1, u64::from(phase.number())),
            TableFault::NoSeat(seat) => Refusal::with(2, u64::from(seat)),
            TableFault::OtherTurn(due) => Refusal::with(3, u64::from(due)),
            TableFault::WrongLength(length) => Refusal::with(4, length as u64),
            TableFault::NoPlace(place) => Refusal::with(6, u64::from(place)),
            TableFault::PlaceTaken(place) => Refusal::with(7, u64::from(place)),
            TableFault::DrawRunning(draw) => Refusal::with(8, u64::from(draw)),
            TableFault::NoDrawRunning => Refusal::alone(9),
            TableFault::OwnShare(seat) => Refusal::with(10, u64::from(seat)),
            TableFault::SecondShare(seat) => Refusal::with(11, u64::from(seat)),
            TableFault::NotDealt(draw) => Refusal::with(12, u64::from(draw)),
            TableFault::AlreadyShown(draw) => Refusal::with(13, u64::from(draw)),
            TableFault::NoCard(card) => Refusal::with(14, u64::from(card)),
            TableFault::AlreadyDisclosed(seat) => Refusal::with(15, u64::from(seat)),
            TableFault::NotOrder => Refusal::alone(17),
            TableFault::FewDisclosures(count) => Refusal::with(18, u64::from(count)),
            TableFault::OutsideLimits => Refusal::alone(19),
            TableFault::Cipher { seat: _, fault } => Refusal::from(fault),
        }
    }
}
