// Every refusal of a list of calls, at its edges, and which comes first where two apply.
use crate::calls::Ask::*;
use crate::calls::{Ask, BINARY, Due, FIRST_LOCK, PRIME, check_calls, check_reply, refused};
use crate::hands::seated;
use refusal::Refusal;
use session::Reply::*;
use session::{Script, run};
use std::alloc::Global;
use std::process::Abort;
use std::test::Fail;

fn check_size(rt: &(impl Abort + AllocGlobal), seats: u8, cards: u8, within: bool) {
    let script = Script {
        seats,
        cards,
        steps: Vec::new(rt.alloc()),
    };
    let answered = run(rt.alloc(), &PRIME, &script).map(|replies| replies.len());
    let due = if within { Ok(0) } else { refused!(19) };
    assert_eq!(rt; answered.map_err(Refusal::from), due);
}

#[test]
fn limits(rt: HostRuntime) {
    for (seats, fit_seats) in [(0, false), (1, false), (2, true), (8, true), (9, false)] {
        for (cards, fit_cards) in [(0, false), (1, false), (2, true), (52, true), (53, false)] {
            check_size(&rt, seats, cards, fit_seats && fit_cards);
        }
    }
    check_size(&rt, 255, 255, false);
}

static LOCKING: [(Ask, Due); 23] = [
    (Draw(255, 255), refused!(1, 0)),
    (Share(255, 0), refused!(1, 0)),
    (Abandon, refused!(1, 0)),
    (Close, refused!(1, 0)),
    (Show(255, 255), refused!(1, 0)),
    (Disclose(255, 0, &[]), refused!(1, 0)),
    (Audit, refused!(1, 0)),
    (Lock(2, &[]), refused!(2, 2)),
    (Lock(255, &[]), refused!(2, 255)),
    (Lock(1, &[]), refused!(3, 0)),
    (Lock(0, &[]), refused!(4, 0)),
    (Lock(0, &[0, 0]), refused!(4, 2)),
    (Lock(0, &[0, 0, 0, 0]), refused!(4, 4)),
    (Lock(0, &[0, 4294967295, 0]), refused!(5, 0, 0)),
    (Lock(0, &[1, 2147483647, 0]), refused!(5, 1, 2147483647)),
    (Lock(0, &[1, 1, 4294967295]), refused!(5, 2, 4294967295)),
    (Lock(0, &[1, 2147483646, 1]), Ok(Entered(0))),
    (Lock(0, &[]), refused!(3, 1)),
    (Lock(2, &[]), refused!(2, 2)),
    (Audit, refused!(1, 0)),
    (Lock(1, &[7, 8, 9]), Ok(Entered(1))),
    (Lock(255, &[]), refused!(1, 1)),
    (Audit, refused!(1, 1)),
];

#[test]
fn locks(rt: HostRuntime) -> Result<(), Fail> {
    check_calls(&rt, &PRIME, (2, 3), &LOCKING)
}

static DEALING: [(Ask, Due); 44] = [
    (Lock(0, &[3, 4]), Ok(Entered(0))),
    (Lock(1, &[3, 4]), Ok(Entered(1))),
    (Lock(2, &[3, 4]), Ok(Entered(2))),
    (Show(255, 255), refused!(1, 1)),
    (Disclose(255, 0, &[]), refused!(1, 1)),
    (Share(255, 0), refused!(9)),
    (Abandon, refused!(9)),
    (Draw(3, 255), refused!(2, 3)),
    (Draw(255, 0), refused!(2, 255)),
    (Draw(0, 2), refused!(6, 2)),
    (Draw(0, 255), refused!(6, 255)),
    (Draw(2, 1), Ok(Entered(3))),
    (Draw(255, 255), refused!(8, 0)),
    (Draw(0, 1), refused!(8, 0)),
    (Close, refused!(8, 0)),
    (Show(0, 0), refused!(1, 1)),
    (Share(3, 0), refused!(2, 3)),
    (Share(255, 0), refused!(2, 255)),
    (Share(2, 0), refused!(10, 2)),
    (Share(0, 0), refused!(5, 0, 0)),
    (Share(0, 2147483647), refused!(5, 0, 2147483647)),
    (Share(0, 4294967295), refused!(5, 0, 4294967295)),
    (Share(0, 2147483646), Ok(Entered(4))),
    (Share(0, 0), refused!(11, 0)),
    (Share(2, 0), refused!(10, 2)),
    (Close, refused!(8, 0)),
    (Share(1, 1), Ok(Entered(5))),
    (Share(1, 1), refused!(9)),
    (Abandon, refused!(9)),
    (Draw(3, 1), refused!(2, 3)),
    (Draw(0, 1), refused!(7, 1)),
    (Draw(0, 0), Ok(Entered(6))),
    (Draw(0, 0), refused!(8, 1)),
    (Close, refused!(8, 1)),
    (Share(0, 1), refused!(10, 0)),
    (Share(1, 5), Ok(Entered(7))),
    (Share(1, 5), refused!(11, 1)),
    (Abandon, Ok(Entered(8))),
    (Abandon, refused!(9)),
    (Share(2, 5), refused!(9)),
    (Draw(2, 0), refused!(7, 0)),
    (Audit, refused!(1, 1)),
    (Close, Ok(Entered(2))),
    (Audit, refused!(1, 2)),
];

#[test]
fn draws_and_shares(rt: HostRuntime) -> Result<(), Fail> {
    check_calls(&rt, &PRIME, (3, 2), &DEALING)
}

static ENDING: [(Ask, Due); 48] = [
    (Lock(0, &[3, 4]), Ok(Entered(0))),
    (Lock(1, &[3, 4]), Ok(Entered(1))),
    (Draw(0, 1), Ok(Entered(2))),
    (Abandon, Ok(Entered(3))),
    (Draw(1, 0), Ok(Entered(4))),
    (Share(0, 9), Ok(Entered(5))),
    (Close, Ok(Entered(2))),
    (Lock(255, &[]), refused!(1, 2)),
    (Draw(255, 255), refused!(1, 2)),
    (Share(255, 0), refused!(1, 2)),
    (Abandon, refused!(1, 2)),
    (Disclose(255, 0, &[]), refused!(1, 2)),
    (Show(0, 255), refused!(12, 0)),
    (Show(2, 255), refused!(12, 2)),
    (Show(255, 0), refused!(12, 255)),
    (Show(1, 2), refused!(14, 2)),
    (Show(1, 255), refused!(14, 255)),
    (Show(1, 1), Ok(Entered(6))),
    (Show(1, 255), refused!(13, 1)),
    (Close, Ok(Entered(3))),
    (Close, refused!(1, 3)),
    (Abandon, refused!(1, 3)),
    (Lock(255, &[]), refused!(1, 3)),
    (Draw(255, 255), refused!(1, 3)),
    (Share(255, 0), refused!(1, 3)),
    (Show(255, 255), refused!(1, 3)),
    (Audit, refused!(18, 0)),
    (Disclose(2, 0, &[]), refused!(2, 2)),
    (Disclose(255, 0, &[]), refused!(2, 255)),
    (Disclose(0, 0, &[]), refused!(16, 0)),
    (Disclose(0, 2, &[]), refused!(16, 2)),
    (Disclose(0, 7, &[]), refused!(16, 7)),
    (Disclose(0, 2147483646, &[0, 1]), refused!(16, 2147483646)),
    (Disclose(0, 4294967295, &[0, 1]), refused!(16, 4294967295)),
    (Disclose(0, 5, &[]), refused!(4, 0)),
    (Disclose(0, 5, &[0]), refused!(4, 1)),
    (Disclose(0, 5, &[0, 1, 1]), refused!(4, 3)),
    (Disclose(0, 5, &[0, 0]), refused!(17)),
    (Disclose(0, 5, &[1, 2]), refused!(17)),
    (Disclose(0, 5, &[0, 255]), refused!(17)),
    (Disclose(0, 2147483645, &[1, 0]), Ok(Entered(7))),
    (Disclose(0, 0, &[]), refused!(15, 0)),
    (Disclose(2, 0, &[]), refused!(2, 2)),
    (Audit, refused!(18, 1)),
    (Disclose(1, 1, &[0, 1]), Ok(Entered(8))),
    (Disclose(1, 1, &[0, 1]), refused!(15, 1)),
    (Audit, Ok(Audited(Some(FIRST_LOCK)))),
    (Close, refused!(1, 3)),
];

#[test]
fn shows_and_disclosures(rt: HostRuntime) -> Result<(), Fail> {
    check_calls(&rt, &PRIME, (2, 2), &ENDING)
}

static OVER_BINARY: [(Ask, Due); 15] = [
    (Lock(0, &[2147483648, 0]), refused!(5, 0, 2147483648)),
    (Lock(0, &[2147483647, 0]), refused!(5, 1, 0)),
    (Lock(0, &[2147483647, 1]), Ok(Entered(0))),
    (Lock(1, &[1, 2]), Ok(Entered(1))),
    (Draw(0, 1), Ok(Entered(2))),
    (Share(1, 2147483648), refused!(5, 0, 2147483648)),
    (Share(1, 2147483647), Ok(Entered(3))),
    (Close, Ok(Entered(2))),
    (Close, Ok(Entered(3))),
    (Disclose(0, 0, &[]), refused!(16, 0)),
    (Disclose(0, 2147483647, &[]), refused!(16, 2147483647)),
    (Disclose(0, 2147483646, &[]), refused!(4, 0)),
    (Disclose(0, 2147483646, &[1, 0]), Ok(Entered(4))),
    (Disclose(1, 7, &[0, 1]), Ok(Entered(5))),
    (Audit, Ok(Audited(Some(FIRST_LOCK)))),
];

#[test]
fn values_and_keys_over_binary(rt: HostRuntime) -> Result<(), Fail> {
    check_calls(&rt, &BINARY, (2, 2), &OVER_BINARY)
}

// So many seats disclose, the last of them first, and then the hand is audited.
fn audited(heap: Global, seats: u8, count: usize) -> Result<Script, Fail> {
    let disclosed: Vec<u8> = (0..seats).rev().take(count).collect(heap)?;
    seated(heap, &PRIME, seats, 3)?.end(&[], &disclosed)
}

fn check_count(rt: &(impl Abort + AllocGlobal), seats: u8, count: u8) -> Result<(), Fail> {
    let script = audited(rt.alloc(), seats, usize::from(count))?;
    let replies = run(rt.alloc(), &PRIME, &script)?;
    let due = if count < seats {
        refused!(18, u64::from(count))
    } else {
        Ok(Audited(None))
    };
    let last = replies.len().saturating_sub(1);
    check_reply(rt, last, replies.last().copied().ok_or("no reply")?, due);
    Ok(())
}

#[test]
fn few_disclosures(rt: HostRuntime) -> Result<(), Fail> {
    for seats in [2u8, 3, 8] {
        for count in 0..=seats {
            check_count(&rt, seats, count)?;
        }
    }
    Ok(())
}
