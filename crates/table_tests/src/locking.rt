// Starting a table, and the locks.
use crate::hands::{CIPHER, FIRST, SECOND, accepted, refused};
use cipher::Cipher;
use refusal::Refusal;
use std::alloc::Global;
use std::test::Fail;
use table::fault::TableFault;
use table::table::Table;

fn starts(heap: Global, seats: u8, cards: u8) -> bool {
    Table::start(heap, seats, cards).is_ok()
}

#[test]
fn limits(rt: HostRuntime) -> Result<(), Fail> {
    let heap = rt.alloc();
    for (seats, cards) in [(2, 2), (2, 52), (8, 2), (8, 52)] {
        assert!(rt; starts(heap, seats, cards));
    }
    for (seats, cards) in [(1, 3), (9, 3), (0, 0), (2, 1), (2, 53), (255, 255)] {
        assert!(rt; !starts(heap, seats, cards));
    }
    let refused = Table::start(heap, 9, 3).err();
    assert_eq!(rt; refused.map(Refusal::from), Some(Refusal::alone(19)));
    Ok(())
}

#[test]
fn locks_refused(rt: HostRuntime) -> Result<(), Fail> {
    let mut table = Table::start(rt.alloc(), 2, 3)?;
    refused(&rt, table.lock(&CIPHER, 2, &FIRST), Refusal::with(2, 2));
    refused(&rt, table.lock(&CIPHER, 1, &[]), Refusal::with(3, 0));
    refused(&rt, table.lock(&CIPHER, 0, &[0, 1]), Refusal::with(4, 2));
    refused(
        &rt,
        table.lock(&CIPHER, 0, &[7, 0, 0]),
        Refusal::with_both(5, 1, 0),
    );
    accepted(&rt, table.lock(&CIPHER, 0, &FIRST), 0);
    refused(&rt, table.lock(&CIPHER, 0, &FIRST), Refusal::with(3, 1));
    accepted(&rt, table.lock(&CIPHER, 1, &SECOND), 1);
    refused(&rt, table.lock(&CIPHER, 9, &[]), Refusal::with(1, 1));
    Ok(())
}

#[test]
fn other_calls_while_locking(rt: HostRuntime) -> Result<(), Fail> {
    let mut table = Table::start(rt.alloc(), 2, 3)?;
    let early = Refusal::with(1, 0);
    refused(&rt, table.draw(9, 9), early);
    refused(&rt, table.share(&CIPHER, 0, 0), early);
    refused(&rt, table.abandon(), early);
    refused(&rt, table.close(), early);
    refused(&rt, table.show(0, 0), early);
    refused(&rt, table.disclose(&CIPHER, 0, 5, &[0, 1, 2]), early);
    Ok(())
}
