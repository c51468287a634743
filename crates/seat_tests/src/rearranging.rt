// Rearranging lists by orders, and what it refuses.
use crate::lists::{check_all, numbers};
use permutation::fault::OrderFault;
use permutation::rearrange;
use refusal::Refusal;
use std::array;
use std::process::Abort;
use std::test::*;

#[test]
fn reversed(rt: HostRuntime) -> Result<(), Fail> {
    let list: [u32; 52] = array::from_fn(|i| 100 + i as u32);
    for length in [0, 1, 2, 52] {
        assert!(rt; length <= 52);
        let mut order: [u8; 52] = numbers();
        check_reversed(
            &rt,
            &list[..length],
            &mut order[..length],
            &mut [9; 52][..length],
        )?;
    }
    Ok(())
}

// The order is given as it counts up.
fn check_reversed(
    rt: &impl Abort,
    list: &[u32],
    order: &mut [u8],
    target: &mut [u32],
) -> Result<(), Fail> {
    order.reverse();
    assert_eq!(rt; rearrange(list, order, target), Ok(()));
    target.reverse();
    assert_eq!(rt; &*target, list);
    Ok(())
}

// By 1 2 0 and then by 0 2 1, which is not the same as the other way round.
#[test]
fn one_order_after_another(rt: HostRuntime) -> Result<(), Fail> {
    let mut target = [9; 3];
    assert_eq!(rt; rearrange(&[1u8, 2, 0], &[0, 2, 1], &mut target), Ok(()));
    assert_eq!(rt; target, [1, 0, 2]);
    assert_eq!(rt; rearrange(&[0u8, 2, 1], &[1, 2, 0], &mut target), Ok(()));
    assert_eq!(rt; target, [2, 1, 0]);
    Ok(())
}

const LENGTHS: [(usize, usize, usize); 10] = [
    (3, 2, 2),
    (2, 3, 2),
    (2, 2, 3),
    (2, 3, 4),
    (3, 2, 3),
    (0, 1, 0),
    (1, 0, 0),
    (0, 0, 1),
    (2, 2, 60),
    (53, 53, 53),
];

// Whatever the lengths, that of the order is told, and the whole target is blank.
#[test]
fn wrong_lengths(rt: HostRuntime) -> Result<(), Fail> {
    let order: [u8; 60] = numbers();
    for (listed, ordered, targeted) in LENGTHS {
        assert!(rt; listed <= 60 && ordered <= 60 && targeted <= 60);
        let fault = OrderFault::WrongLength(ordered);
        check_refused(
            &rt,
            &[1; 60][..listed],
            &order[..ordered],
            &mut [9; 60][..targeted],
            fault,
        )?;
    }
    Ok(())
}

// The lengths are looked at first.
const NOT_ORDERS: [(&[u32], &[u8], OrderFault); 4] = [
    (&[1, 2], &[0, 0], OrderFault::NotOrder),
    (&[1, 2], &[1, 2], OrderFault::NotOrder),
    (&[1; 52], &[0; 52], OrderFault::NotOrder),
    (&[1; 53], &[0; 53], OrderFault::WrongLength(53)),
];

#[test]
fn not_orders(rt: HostRuntime) -> Result<(), Fail> {
    for (list, order, fault) in NOT_ORDERS {
        assert!(rt; list.len() <= 53);
        check_refused(&rt, list, order, &mut [9; 53][..list.len()], fault)?;
    }
    Ok(())
}

fn check_refused(
    rt: &impl Abort,
    list: &[u32],
    order: &[u8],
    target: &mut [u32],
    fault: OrderFault,
) -> Result<(), Fail> {
    assert_eq!(rt; rearrange(list, order, target), Err(fault));
    check_all(rt, target, 0)
}

#[test]
fn blank_places(rt: HostRuntime) -> Result<(), Fail> {
    let mut target = [9u8; 2];
    assert_eq!(rt;
        rearrange(&[1, 0], &[1, 1], &mut target),
        Err(OrderFault::NotOrder)
    );
    assert_eq!(rt; target, [255, 255]);
    let mut longer = [9u8; 3];
    assert_eq!(rt;
        rearrange(&[1, 0], &[1, 0], &mut longer),
        Err(OrderFault::WrongLength(2))
    );
    assert_eq!(rt; longer, [255, 255, 255]);
    Ok(())
}

#[test]
fn refusals_as_told(rt: HostRuntime) -> Result<(), Fail> {
    assert_eq!(rt;
        Refusal::from(OrderFault::WrongLength(53)),
        Refusal::with(4, 53)
    );
    assert_eq!(rt; Refusal::from(OrderFault::NotOrder), Refusal::alone(17));
    Ok(())
}
