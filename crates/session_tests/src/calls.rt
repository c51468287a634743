// Calls and what they should answer, as plain lists.
use binary::BinaryField;
use cipher::Cipher;
use power::power_cipher::PowerCipher;
use prime::PrimeField;
use refusal::Refusal;
use session::{Reply, Script, Step, run};
use std::alloc::{AllocError, Global};
use std::process::Abort;
use std::test::Fail;
use table::call::Call;
use table::fault::TableFault;
use verdict::{Finding, Kind};

pub const PRIME: PowerCipher<PrimeField> = PowerCipher { field: PrimeField };

pub const BINARY: PowerCipher<BinaryField> = PowerCipher { field: BinaryField };

#[derive(Clone, Copy)]
pub enum Ask {
    Lock(u8, &'static [u32]),
    Draw(u8, u8),
    Share(u8, u32),
    Abandon,
    Close,
    Show(u8, u8),
    Disclose(u8, u32, &'static [u8]),
    Audit,
}

// What a call should answer.
pub type Due = Result<Reply, Refusal>;

pub const FIRST_LOCK: Finding = Finding {
    entry: 0,
    seat: 0,
    kind: Kind::Lock,
};

// Functions make these refusals too, but a static can call none.
macro_rules! refused {
    ($number:expr) => {
        Err(Refusal { number: $number, first: None, second: None })
    };
    ($number:expr, $value:expr) => {
        Err(Refusal { number: $number, first: Some($value), second: None })
    };
    ($number:expr, $first:expr, $second:expr) => {
        Err(Refusal { number: $number, first: Some($first), second: Some($second) })
    };
}

pub(crate) use refused;

fn asked(heap: Global, ask: Ask) -> Result<Step, AllocError> {
    Ok(Step::Move(match ask {
        Ask::Lock(seat, deck) => Call::Lock {
            seat,
            deck: deck.to_vec(heap)?,
        },
        Ask::Draw(seat, place) => Call::Draw { seat, place },
        Ask::Share(seat, value) => Call::Share { seat, value },
        Ask::Abandon => Call::Abandon,
        Ask::Close => Call::Close,
        Ask::Show(draw, card) => Call::Show { draw, card },
        Ask::Disclose(seat, key, order) => Call::Disclose {
            seat,
            key,
            order: order.to_vec(heap)?,
        },
        Ask::Audit => return Ok(Step::Audit),
    }))
}

// What a call answers; a failure tells the call's number.
pub fn check_reply(rt: &impl Abort, number: usize, reply: Result<Reply, TableFault>, due: Due) {
    assert_eq!(rt; reply.map_err(Refusal::from), due, "call {number}");
}

pub fn script(heap: Global, size: (u8, u8), list: &[(Ask, Due)]) -> Result<Script, Fail> {
    Ok(Script {
        seats: size.0,
        cards: size.1,
        steps: list
            .iter()
            .map(|(ask, _)| asked(heap, *ask))
            .try_collect(heap)?,
    })
}

// `?` takes no error that holds an item to a failure.
pub fn push<T: Drop>(to: &mut Vec<T>, item: T) -> Result<(), AllocError> {
    to.push(item)?;
    Ok(())
}

// On a table of so many seats and cards, each call of the list answers what stands beside it.
pub fn check_calls<C: Cipher>(
    rt: &(impl Abort + AllocGlobal),
    cipher: &C,
    size: (u8, u8),
    list: &[(Ask, Due)],
) -> Result<(), Fail> {
    let replies = run(rt.alloc(), cipher, &script(rt.alloc(), size, list)?)?;
    assert_eq!(rt; replies.len(), list.len());
    for (number, (reply, (_, due))) in replies.iter().zip(list).enumerate() {
        check_reply(rt, number, *reply, *due);
    }
    Ok(())
}
