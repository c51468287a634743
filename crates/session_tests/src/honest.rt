// Honest hands, which the audit finds clean.
use crate::calls::Ask::*;
use crate::calls::{Ask, BINARY, Due, PRIME, check_calls};
use crate::hands::{Hand, check_hand, keyed, seated};
use cipher::Cipher;
use session::Reply::*;
use session::{Script, Step};
use std::alloc::Global;
use std::process::Abort;
use std::test::Fail;
use table::call::Call;

// Over the prime field, both keys 5, orders 1 2 0 and 0 2 1.
static KNOWN: [(Ask, Due); 13] = [
    (Lock(0, &[984943658, 470211272, 282475249]), Ok(Entered(0))),
    (
        Lock(1, &[143542612, 2007237709, 1505795335]),
        Ok(Entered(1)),
    ),
    (Draw(1, 1), Ok(Entered(2))),
    (Share(0, 282475249), Ok(Entered(3))),
    (Draw(0, 0), Ok(Entered(4))),
    (Share(1, 984943658), Ok(Entered(5))),
    (Close, Ok(Entered(2))),
    (Show(0, 0), Ok(Entered(6))),
    (Show(1, 1), Ok(Entered(7))),
    (Close, Ok(Entered(3))),
    (Disclose(1, 5, &[0, 2, 1]), Ok(Entered(8))),
    (Disclose(0, 5, &[1, 2, 0]), Ok(Entered(9))),
    (Audit, Ok(Audited(None))),
];

#[test]
fn known_hand(rt: HostRuntime) -> Result<(), Fail> {
    check_calls(&rt, &PRIME, (2, 3), &KNOWN)
}

// The known hand under a cipher, its values made by seats with these keys.
pub fn known<C: Cipher>(heap: Global, cipher: &C, keys: (u32, u32)) -> Result<Script, Fail> {
    let mut hand = Hand::start(heap, cipher, 3)?;
    hand.seat(keyed(heap, keys.0, &[1, 2, 0])?)?;
    hand.seat(keyed(heap, keys.1, &[0, 2, 1])?)?;
    hand.deal(1, 1, &[0])?;
    hand.deal(0, 0, &[1])?;
    hand.end(&[0, 1], &[1, 0])
}

// The sum of the shares.
fn shared(steps: &[Step]) -> u64 {
    steps
        .iter()
        .filter_map(|step| match step {
            Step::Move(Call::Share { value, .. }) => Some(u64::from(*value)),
            _ => None,
        })
        .fold(0u64, |sum, value| sum.wrapping_add(value))
}

fn check_known<C: Cipher>(
    rt: &(impl Abort + AllocGlobal),
    cipher: &C,
    shares: u64,
) -> Result<(), Fail> {
    let script = known(rt.alloc(), cipher, (5, 5))?;
    assert_eq!(rt; shared(&script.steps), shares);
    check_hand(rt, cipher, &script, None)
}

#[test]
fn known_hand_by_seats(rt: HostRuntime) -> Result<(), Fail> {
    check_known(&rt, &PRIME, 282475249 + 984943658)?;
    check_known(&rt, &BINARY, 32 + 1024)
}

// Shares in various orders of seats. The second draw is abandoned after a share, and the fourth
// at once.
static DEALS: [(u8, u8, &[u8]); 6] = [
    (3, 51, &[7, 0, 6, 1, 5, 2, 4]),
    (0, 17, &[4]),
    (7, 0, &[0, 1, 2, 3, 4, 5, 6]),
    (7, 1, &[]),
    (3, 30, &[6, 5, 4, 2, 1, 0, 7]),
    (5, 29, &[1, 7, 3, 0, 2, 4, 6]),
];

// A hand of eight seats and 52 cards. One dealt draw is never shown.
pub fn mixed<C: Cipher>(heap: Global, cipher: &C) -> Result<Script, Fail> {
    let mut hand = seated(heap, cipher, 8, 52)?;
    for (seat, place, sharers) in &DEALS {
        hand.deal(*seat, *place, sharers)?;
    }
    hand.end(&[5, 0, 2], &[4, 7, 0, 2, 6, 1, 3, 5])
}

#[test]
fn mixed_hands(rt: HostRuntime) -> Result<(), Fail> {
    let heap = rt.alloc();
    check_hand(&rt, &PRIME, &mixed(heap, &PRIME)?, None)?;
    check_hand(&rt, &BINARY, &mixed(heap, &BINARY)?, None)
}

// Every place is dealt, every draw shown, the last first, and the last seat discloses first.
fn full<C: Cipher>(heap: Global, cipher: &C, seats: u8, cards: u8) -> Result<Script, Fail> {
    let mut hand = seated(heap, cipher, seats, cards)?;
    for place in 0..cards {
        let seat = place % seats.max(1);
        hand.deal(seat, place, &[6, 1, 0, 7, 5, 2, 4, 3])?;
    }
    let draws: Vec<u8> = (0..cards).rev().collect(heap)?;
    let disclosed: Vec<u8> = (0..seats).rev().collect(heap)?;
    hand.end(&draws, &disclosed)
}

fn check_full<C: Cipher>(rt: &(impl Abort + AllocGlobal), cipher: &C) -> Result<(), Fail> {
    for (seats, cards, calls) in [
        (2, 2, 13),
        (2, 52, 163),
        (8, 2, 37),
        (5, 13, 91),
        (8, 52, 487),
    ] {
        let script = full(rt.alloc(), cipher, seats, cards)?;
        assert_eq!(rt; script.steps.len(), calls);
        check_hand(rt, cipher, &script, None)?;
    }
    Ok(())
}

// The longest hand that there is has 484 entries, two closes and the audit.
#[test]
fn full_hands(rt: HostRuntime) -> Result<(), Fail> {
    check_full(&rt, &PRIME)?;
    check_full(&rt, &BINARY)
}
