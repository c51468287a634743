// Draws, shares and abandoned draws.
use crate::hands::{CIPHER, accepted, locked, refused};
use refusal::Refusal;
use std::test::Fail;

#[test]
fn draws_refused(rt: HostRuntime) -> Result<(), Fail> {
    let mut table = locked(&rt)?;
    refused(&rt, table.draw(2, 9), Refusal::with(2, 2));
    refused(&rt, table.draw(1, 3), Refusal::with(6, 3));
    accepted(&rt, table.draw(1, 1), 2);
    refused(&rt, table.draw(9, 9), Refusal::with(8, 0));
    refused(&rt, table.close(), Refusal::with(8, 0));
    accepted(&rt, table.abandon(), 3);
    refused(&rt, table.draw(0, 1), Refusal::with(7, 1));
    accepted(&rt, table.draw(0, 2), 4);
    refused(&rt, table.draw(0, 0), Refusal::with(8, 1));
    Ok(())
}

#[test]
fn shares_refused(rt: HostRuntime) -> Result<(), Fail> {
    let mut table = locked(&rt)?;
    refused(&rt, table.share(&CIPHER, 0, 7), Refusal::alone(9));
    refused(&rt, table.abandon(), Refusal::alone(9));
    accepted(&rt, table.draw(1, 1), 2);
    refused(&rt, table.share(&CIPHER, 2, 0), Refusal::with(2, 2));
    refused(&rt, table.share(&CIPHER, 1, 0), Refusal::with(10, 1));
    refused(&rt, table.share(&CIPHER, 0, 0), Refusal::with_both(5, 0, 0));
    accepted(&rt, table.share(&CIPHER, 0, 7), 3);
    refused(&rt, table.share(&CIPHER, 0, 7), Refusal::alone(9));
    Ok(())
}
