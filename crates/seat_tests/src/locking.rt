// Seats that lock a deck and unlock single values.
use crate::keyed::made;
use crate::lists::check_all;
use cipher::Cipher;
use cipher::fault::CipherFault;
use permutation::fault::OrderFault;
use power::power_cipher::PowerCipher;
use prime::PrimeField;
use refusal::Refusal;
use seat::Seat;
use seat::fault::SeatFault;
use std::process::Abort;
use std::test::*;

const PRIME: PowerCipher<PrimeField> = PowerCipher { field: PrimeField };

// The codes of cards 0, 1 and 2.
const CODES: [u32; 3] = [49, 2401, 117649];

// Key 5 twice: the powers of the codes in the first order, and of these in the second.
#[test]
fn two_seats(rt: HostRuntime) -> Result<(), Fail> {
    let first = made(&rt, 5, &[1, 2, 0])??;
    let second = made(&rt, 5, &[0, 2, 1])??;
    let mut once = [9; 3];
    assert_eq!(rt; first.lock(&PRIME, &CODES, &mut once), Ok(()));
    assert_eq!(rt; once, [984943658, 470211272, 282475249]);
    let mut twice = [9; 3];
    assert_eq!(rt; second.lock(&PRIME, &once, &mut twice), Ok(()));
    assert_eq!(rt; twice, [143542612, 2007237709, 1505795335]);
    Ok(())
}

// Taken off in the order in which they came, the two locks leave the codes of cards 1, 0 and 2.
#[test]
fn two_locks_off(rt: HostRuntime) -> Result<(), Fail> {
    let first = made(&rt, 5, &[1, 2, 0])??;
    let second = made(&rt, 5, &[0, 2, 1])??;
    for (locked, code) in [(143542612, 2401), (2007237709, 49), (1505795335, 117649)] {
        assert_eq!(rt;
            second.unlock(&PRIME, first.unlock(&PRIME, locked)?),
            Ok(code)
        );
    }
    Ok(())
}

// The deck's length is looked at first, then the target's, the key, and the values from place 0 on.
#[test]
fn locks_refused(rt: HostRuntime) -> Result<(), Fail> {
    // The key, the deck, how many places the target has, and the fault.
    let refused: [(u32, &[u32], usize, SeatFault); 7] = [
        (7, &[49, 0], 4, SeatFault::WrongLength(2)),
        (7, &[49, 0, 0, 49], 3, SeatFault::WrongLength(4)),
        (7, &[49, 0, 0], 4, SeatFault::WrongLength(4)),
        (7, &[], 0, SeatFault::WrongLength(0)),
        (7, &[49, 0, 0], 3, UNLAWFUL_SEVEN),
        (5, &[49, 0, 2147483647], 3, not_value(1, 0)),
        (5, &[49, 2401, 2147483647], 3, not_value(2, 2147483647)),
    ];
    for (key, deck, places, fault) in refused {
        assert!(rt; places <= 4);
        let seat = made(&rt, key, &[1, 2, 0])??;
        check_lock_refused(&rt, &seat, deck, &mut [9; 4][..places], fault)?;
    }
    Ok(())
}

const UNLAWFUL_SEVEN: SeatFault = SeatFault::Cipher(CipherFault::UnlawfulKey(7));

fn not_value(place: usize, value: u32) -> SeatFault {
    SeatFault::Cipher(CipherFault::NotValue { place, value })
}

// The whole target is blank.
pub fn check_lock_refused<S: Seat>(
    rt: &impl Abort,
    seat: &S,
    deck: &[u32],
    target: &mut [u32],
    fault: SeatFault,
) -> Result<(), Fail> {
    assert_eq!(rt; seat.lock(&PRIME, deck, target), Err(fault));
    check_all(rt, target, 0)
}

// The key is looked at before the value, which stands alone.
#[test]
fn unlocks_refused(rt: HostRuntime) -> Result<(), Fail> {
    let lawful = made(&rt, 5, &[1, 2, 0])??;
    let unlawful = made(&rt, 7, &[1, 2, 0])??;
    assert_eq!(rt; lawful.unlock(&PRIME, 282475249), Ok(49));
    for value in [0, 2147483647, 4294967295] {
        assert_eq!(rt; lawful.unlock(&PRIME, value), Err(not_value(0, value)));
        assert_eq!(rt; unlawful.unlock(&PRIME, value), Err(UNLAWFUL_SEVEN));
    }
    Ok(())
}

#[test]
fn refusals_as_told(rt: HostRuntime) -> Result<(), Fail> {
    assert_eq!(rt;
        Refusal::from(SeatFault::WrongLength(53)),
        Refusal::with(4, 53)
    );
    assert_eq!(rt; Refusal::from(SeatFault::NotOrder), Refusal::alone(17));
    assert_eq!(rt;
        Refusal::from(SeatFault::UnfitGenerator),
        Refusal::with(20, 0)
    );
    assert_eq!(rt; Refusal::from(not_value(2, 9)), Refusal::with_both(5, 2, 9));
    assert_eq!(rt; Refusal::from(UNLAWFUL_SEVEN), Refusal::with(16, 7));
    Ok(())
}

#[test]
fn faults_of_orders(rt: HostRuntime) -> Result<(), Fail> {
    assert_eq!(rt;
        SeatFault::from(OrderFault::WrongLength(53)),
        SeatFault::WrongLength(53)
    );
    assert_eq!(rt; SeatFault::from(OrderFault::NotOrder), SeatFault::NotOrder);
    Ok(())
}
