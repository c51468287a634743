// Seats that hold a key and an order.
use crate::lists::{check_all, numbers};
use field::Field;
use power::power_cipher::PowerCipher;
use prime::PrimeField;
use seat::Seat;
use seat::fault::SeatFault;
use seat::keyed::KeyedSeat;
use std::process::Abort;
use std::test::*;

#[test]
fn sizes(rt: HostRuntime) -> Result<(), Fail> {
    for length in [0, 1, 53, 60] {
        assert_eq!(rt;
            counted(&rt, length)?.err(),
            Some(SeatFault::WrongLength(length))
        );
    }
    for length in [2, 3, 52] {
        assert_eq!(rt; counted(&rt, length)?.err(), None);
    }
    Ok(())
}

// A seat with so many places in their own order.
fn counted(rt: &HostRuntime, length: usize) -> Result<Result<KeyedSeat, SeatFault>, Fail> {
    let places: [u8; 60] = numbers();
    made(rt, 5, places.get(..length).ok_or("too long")?)
}

// The length is looked at before the order.
const NOT_ORDERS: [(&[u8], SeatFault); 5] = [
    (&[0, 0], SeatFault::NotOrder),
    (&[1, 2], SeatFault::NotOrder),
    (&[0; 52], SeatFault::NotOrder),
    (&[1], SeatFault::WrongLength(1)),
    (&[0; 53], SeatFault::WrongLength(53)),
];

#[test]
fn not_orders(rt: HostRuntime) -> Result<(), Fail> {
    for (order, fault) in NOT_ORDERS {
        assert_eq!(rt; made(&rt, 5, order)?.err(), Some(fault));
    }
    Ok(())
}

pub fn made(
    rt: &HostRuntime,
    key: u32,
    order: &[u8],
) -> Result<Result<KeyedSeat, SeatFault>, Fail> {
    Ok(KeyedSeat::new(key, order.to_vec(rt.alloc())?))
}

// Any key will do to make a seat.
#[test]
fn keys(rt: HostRuntime) -> Result<(), Fail> {
    let cipher = PowerCipher { field: PrimeField };
    for key in [0, 5, 7, 4294967295] {
        let seat = made(&rt, key, &[1, 2, 0])??;
        assert_eq!(rt; seat.key(&cipher), key);
        assert_eq!(rt; seat.size(), 3);
    }
    Ok(())
}

#[test]
fn orders(rt: HostRuntime) -> Result<(), Fail> {
    let seat = made(&rt, 5, &[1, 2, 0])??;
    let mut target = [9; 3];
    assert_eq!(rt; seat.order(&mut target), Ok(()));
    assert_eq!(rt; target, [1, 2, 0]);
    check_order_refused(&rt, &seat, &mut [])?;
    check_order_refused(&rt, &seat, &mut [9; 2])?;
    check_order_refused(&rt, &seat, &mut [9; 4])
}

// The target's length is told, and the whole target is blank.
pub fn check_order_refused<S: Seat>(
    rt: &impl Abort,
    seat: &S,
    target: &mut [u8],
) -> Result<(), Fail> {
    let length = target.len();
    assert_eq!(rt; seat.order(target), Err(SeatFault::WrongLength(length)));
    check_all(rt, target, 255)
}
