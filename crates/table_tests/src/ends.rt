// Second shares, shows and disclosures.
use crate::hands::{CIPHER, accepted, dealt, refused};
use cipher::Cipher;
use refusal::Refusal;
use std::test::Fail;
use table::fault::TableFault;
use table::table::Table;

#[test]
fn second_share(rt: HostRuntime) -> Result<(), Fail> {
    let mut table = Table::start(rt.alloc(), 3, 2)?;
    for seat in 0..3u8 {
        accepted(&rt, table.lock(&CIPHER, seat, &[3, 4]), usize::from(seat));
    }
    accepted(&rt, table.draw(2, 0), 3);
    accepted(&rt, table.share(&CIPHER, 0, 7), 4);
    refused(&rt, table.share(&CIPHER, 0, 0), Refusal::with(11, 0));
    accepted(&rt, table.share(&CIPHER, 1, 8), 5);
    accepted(&rt, table.close(), 2);
    Ok(())
}

#[test]
fn shows_refused(rt: HostRuntime) -> Result<(), Fail> {
    let mut table = dealt(&rt)?;
    refused(&rt, table.show(2, 9), Refusal::with(12, 2));
    refused(&rt, table.show(255, 9), Refusal::with(12, 255));
    refused(&rt, table.show(0, 3), Refusal::with(14, 3));
    accepted(&rt, table.show(0, 2), 6);
    refused(&rt, table.show(0, 9), Refusal::with(13, 0));
    refused(&rt, table.draw(0, 2), Refusal::with(1, 2));
    Ok(())
}

#[test]
fn disclosures_refused(rt: HostRuntime) -> Result<(), Fail> {
    let mut table = dealt(&rt)?;
    accepted(&rt, table.close(), 3);
    refused(&rt, table.close(), Refusal::with(1, 3));
    refused(&rt, table.disclose(&CIPHER, 2, 7, &[]), Refusal::with(2, 2));
    refused(
        &rt,
        table.disclose(&CIPHER, 0, 7, &[]),
        Refusal::with(16, 7),
    );
    refused(
        &rt,
        table.disclose(&CIPHER, 0, 5, &[0]),
        Refusal::with(4, 1),
    );
    refused(
        &rt,
        table.disclose(&CIPHER, 0, 5, &[0, 1, 1]),
        Refusal::alone(17),
    );
    accepted(&rt, table.disclose(&CIPHER, 0, 5, &[1, 2, 0]), 6);
    refused(
        &rt,
        table.disclose(&CIPHER, 0, 7, &[]),
        Refusal::with(15, 0),
    );
    Ok(())
}
