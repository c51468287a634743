// How an order is refused.
ghost use Rattle.std.specs.Prelude.{◌≡◌};
ghost use Rattle.permutation.specs.Refusals.{refusal_of};

use refusal::Refusal;

#[derive(Clone, Copy, PartialEq, Eq, Debug)]
pub enum OrderFault {
    // The order's length, which is not that of the list and of the target, or is above 52.
    WrongLength(usize),
    NotOrder,
}

impl From<OrderFault> for Refusal {
    ghost from_gives = { λ fault r. r ≡ refusal_of fault };

    fn from(fault: OrderFault) -> Refusal {
        match fault {
            OrderFault::WrongLength(length) => Refusal::with(4, length as u64),
            OrderFault::NotOrder => Refusal::alone(17),
        }
    }
}
