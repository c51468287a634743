// A seat of either kind answers as the seat inside it.
use crate::keyed::{check_order_refused, made};
use crate::locking::check_lock_refused;
use binary::BinaryField;
use cipher::Cipher;
use field::Field;
use power::power_cipher::PowerCipher;
use prime::PrimeField;
use seat::Seat;
use seat::any::AnySeat;
use seat::fault::SeatFault;
use seat::generator::GeneratorSeat;
use std::process::Abort;
use std::test::*;

#[test]
fn keyed_inside(rt: HostRuntime) -> Result<(), Fail> {
    let seat = made(&rt, 7, &[1, 2, 0])??;
    let any = AnySeat::Keyed(made(&rt, 7, &[1, 2, 0])??);
    check_alike(&rt, &any, &seat)
}

#[test]
fn generator_inside(rt: HostRuntime) -> Result<(), Fail> {
    let seat = GeneratorSeat::new(2, 3)?;
    check_alike(&rt, &AnySeat::Generator(seat), &seat)
}

fn check_alike<S: Seat>(rt: &impl Abort, any: &AnySeat, seat: &S) -> Result<(), Fail> {
    assert_eq!(rt; any.size(), seat.size());
    check_order_alike(rt, any, seat)?;
    check_order_refused(rt, any, &mut [9; 4])?;
    check_lock_refused(rt, any, &[49, 2401], &mut [9; 3], SeatFault::WrongLength(2))?;
    check_locks_alike(rt, any, seat, &PowerCipher { field: PrimeField })?;
    check_locks_alike(rt, any, seat, &PowerCipher { field: BinaryField })
}

fn check_order_alike<S: Seat>(rt: &impl Abort, any: &AnySeat, seat: &S) -> Result<(), Fail> {
    let mut one = [9; 3];
    let mut other = [8; 3];
    assert_eq!(rt; any.order(&mut one), seat.order(&mut other));
    assert_eq!(rt; one, other);
    Ok(())
}

fn check_locks_alike<S: Seat, C: Cipher>(
    rt: &impl Abort,
    any: &AnySeat,
    seat: &S,
    cipher: &C,
) -> Result<(), Fail> {
    assert_eq!(rt; any.key(cipher), seat.key(cipher));
    let mut one = [9; 3];
    let mut other = [8; 3];
    assert_eq!(rt;
        any.lock(cipher, &[49, 2401, 117649], &mut one),
        seat.lock(cipher, &[49, 2401, 117649], &mut other)
    );
    assert_eq!(rt; one, other);
    assert_eq!(rt; any.unlock(cipher, 49), seat.unlock(cipher, 49));
    Ok(())
}
