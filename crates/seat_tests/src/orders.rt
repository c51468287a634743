// Which lists of places are orders.
use crate::lists::numbers;
use permutation::is_permutation;
use std::test::*;

const ORDERS: [&[u8]; 5] = [
    &[1, 0],
    &[2, 0, 1],
    &[1, 2, 0],
    &[3, 2, 1, 0],
    &[0, 2, 4, 1, 3],
];

const OTHERS: [&[u8]; 9] = [
    &[1],
    &[255],
    &[0, 0],
    &[1, 1],
    &[0, 2],
    &[1, 2, 3],
    &[2, 1, 2],
    &[0, 1, 255],
    &[3, 3, 3, 3],
];

#[test]
fn counting_from_zero(rt: HostRuntime) -> Result<(), Fail> {
    let list: [u8; 256] = numbers();
    for length in [0, 1, 2, 52, 53, 255, 256] {
        assert!(rt; length <= list.len());
        assert!(rt; is_permutation(&list[..length]));
    }
    Ok(())
}

// A byte cannot tell more than 256 places apart.
#[test]
fn more_than_bytes(rt: HostRuntime) -> Result<(), Fail> {
    assert!(rt; !is_permutation(&numbers::<257>()));
    assert!(rt; !is_permutation(&numbers::<300>()));
    Ok(())
}

#[test]
fn table_of_orders(rt: HostRuntime) -> Result<(), Fail> {
    for order in ORDERS {
        assert!(rt; is_permutation(order));
    }
    Ok(())
}

#[test]
fn table_of_others(rt: HostRuntime) -> Result<(), Fail> {
    for list in OTHERS {
        assert!(rt; !is_permutation(list));
    }
    Ok(())
}

// All different, and yet one of them is no place.
#[test]
fn one_number_too_high(rt: HostRuntime) -> Result<(), Fail> {
    let mut list: [u8; 52] = numbers();
    for (number, is_order) in [(52, false), (51, false), (20, true)] {
        list[20] = number;
        assert_eq!(rt; is_permutation(&list), is_order);
    }
    Ok(())
}
