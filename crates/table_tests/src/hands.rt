// The hand that the other tests start from: over the prime field, two seats, three cards, both keys 5,
// orders 1 2 0 and 0 2 1.
use cipher::Cipher;
use power::power_cipher::PowerCipher;
use prime::PrimeField;
use refusal::Refusal;
use std::process::Abort;
use std::test::Fail;
use table::fault::TableFault;
use table::table::Table;

pub const FIRST: [u32; 3] = [984943658, 470211272, 282475249];

pub const SECOND: [u32; 3] = [143542612, 2007237709, 1505795335];

pub const CIPHER: PowerCipher<PrimeField> = PowerCipher { field: PrimeField };

// A call was accepted, and answered the number given.
pub fn accepted(rt: &impl Abort, answer: Result<usize, TableFault>, number: usize) {
    assert_eq!(rt; answer, Ok(number));
}

// A call was refused, by the number and with the values given.
pub fn refused(rt: &impl Abort, answer: Result<usize, TableFault>, refusal: Refusal) {
    assert_eq!(rt; answer.map_err(Refusal::from), Err(refusal));
}

pub fn locked(rt: &(impl Abort + AllocGlobal)) -> Result<Table, Fail> {
    let mut table = Table::start(rt.alloc(), 2, 3)?;
    accepted(rt, table.lock(&CIPHER, 0, &FIRST), 0);
    accepted(rt, table.lock(&CIPHER, 1, &SECOND), 1);
    Ok(table)
}

// Both draws are dealt, and the showdown is open.
pub fn dealt(rt: &(impl Abort + AllocGlobal)) -> Result<Table, Fail> {
    let mut table = locked(rt)?;
    accepted(rt, table.draw(1, 1), 2);
    accepted(rt, table.share(&CIPHER, 0, 282475249), 3);
    accepted(rt, table.draw(0, 0), 4);
    accepted(rt, table.share(&CIPHER, 1, 984943658), 5);
    accepted(rt, table.close(), 2);
    Ok(table)
}

#[test]
fn whole_hand(rt: HostRuntime) -> Result<(), Fail> {
    let mut table = dealt(&rt)?;
    accepted(&rt, table.show(0, 0), 6);
    accepted(&rt, table.show(1, 1), 7);
    accepted(&rt, table.close(), 3);
    accepted(&rt, table.disclose(&CIPHER, 1, 5, &[0, 2, 1]), 8);
    accepted(&rt, table.disclose(&CIPHER, 0, 5, &[1, 2, 0]), 9);
    Ok(())
}
