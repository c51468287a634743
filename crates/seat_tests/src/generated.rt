// Seats whose key and order come from one start.
use crate::keyed::check_order_refused;
use binary::BinaryField;
use field::Field;
use power::power_cipher::PowerCipher;
use prime::PrimeField;
use seat::Seat;
use seat::fault::SeatFault;
use seat::generator::GeneratorSeat;
use std::process::Abort;
use std::test::*;

const STARTS: [(u32, bool); 5] = [
    (0, false),
    (1, true),
    (2147483646, true),
    (2147483647, false),
    (4294967295, false),
];

const SIZES: [(u8, bool); 6] = [
    (0, false),
    (1, false),
    (2, true),
    (52, true),
    (53, false),
    (255, false),
];

#[test]
fn limits(rt: HostRuntime) -> Result<(), Fail> {
    for (start, fit_start) in STARTS {
        for (size, fit_size) in SIZES {
            let fault = (!fit_start || !fit_size).then_some(SeatFault::UnfitGenerator);
            assert_eq!(rt; GeneratorSeat::new(start, size).err(), fault);
        }
    }
    Ok(())
}

#[test]
fn sizes(rt: HostRuntime) -> Result<(), Fail> {
    for size in [2, 3, 51, 52] {
        assert_eq!(rt; GeneratorSeat::new(1, size)?.size(), size);
    }
    Ok(())
}

// A start, and its keys over the prime and the binary field. Keys and orders were computed apart
// from this code, in whole numbers of any size. The numbers drawn from a start are its products with the
// first, second, third and later powers of 16807, modulo 2147483647. The key is the first number
// from the first of them on whose greatest common divisor with the field's order is 1. The order comes from
// 0, 1, 2 and so on: each place from the last down to 1 changes with the place that the next number
// drawn leaves modulo the count of places up to it.
const KEYS: [(u32, u32, u32); 7] = [
    // 16807 is 7 to the fifth power, and 7 divides the order of the prime field
    (1, 16811, 16807),
    (2, 33617, 33614),
    (2147483646, 2147466841, 2147466840),
    // eleven numbers up over the prime field
    (192, 3226955, 3226944),
    // the first number drawn is the last key but one, the last, and above the last one over the prime field
    (71936294, 2147483645, 2147483644),
    (1479613294, 2147483645, 2147483645),
    (739806647, 1, 2147483646),
];

#[test]
fn keys(rt: HostRuntime) -> Result<(), Fail> {
    let over_prime = PowerCipher { field: PrimeField };
    let over_binary = PowerCipher { field: BinaryField };
    for (start, prime, binary) in KEYS {
        let seat = GeneratorSeat::new(start, 52)?;
        assert_eq!(rt; seat.key(&over_prime), prime);
        assert_eq!(rt; seat.key(&over_binary), binary);
    }
    Ok(())
}

#[test]
fn order_from_the_first_start(rt: HostRuntime) -> Result<(), Fail> {
    check_order(
        &rt,
        1,
        &mut [255; 52],
        &[
            33, 22, 12, 50, 46, 19, 4, 1, 39, 26, 20, 30, 36, 11, 43, 13, 3, 9, 28, 48, 14, 34, 38,
            7, 16, 24, 32, 29, 40, 31, 44, 42, 6, 45, 35, 25, 15, 27, 21, 2, 0, 23, 51, 37, 47, 18,
            10, 49, 41, 8, 5, 17,
        ],
    )
}

#[test]
fn order_from_the_last_start(rt: HostRuntime) -> Result<(), Fail> {
    check_order(
        &rt,
        2147483646,
        &mut [255; 52],
        &[
            9, 16, 21, 15, 17, 19, 31, 35, 44, 1, 3, 11, 12, 27, 13, 18, 49, 46, 48, 47, 8, 22, 34,
            0, 36, 25, 4, 26, 42, 41, 24, 14, 40, 7, 37, 43, 51, 32, 28, 5, 38, 50, 45, 30, 29, 33,
            10, 23, 2, 39, 20, 6,
        ],
    )
}

fn check_order(rt: &impl Abort, start: u32, target: &mut [u8], order: &[u8]) -> Result<(), Fail> {
    let size = u8::try_from(order.len())?;
    assert_eq!(rt; GeneratorSeat::new(start, size)?.order(target), Ok(()));
    assert_eq!(rt; &*target, order);
    Ok(())
}

// Of two places the smallest shuffle makes a change or none.
#[test]
fn two_places(rt: HostRuntime) -> Result<(), Fail> {
    let mut target = [9; 2];
    check_order(&rt, 1, &mut target, &[0, 1])?;
    check_order(&rt, 2, &mut target, &[1, 0])
}

#[test]
fn order_refused(rt: HostRuntime) -> Result<(), Fail> {
    let seat = GeneratorSeat::new(1, 5)?;
    check_order_refused(&rt, &seat, &mut [])?;
    check_order_refused(&rt, &seat, &mut [9; 4])?;
    check_order_refused(&rt, &seat, &mut [9; 53])
}
