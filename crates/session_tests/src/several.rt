// Audits under another cipher, two scripts at once, and refused calls among accepted ones.
use crate::calls::{BINARY, FIRST_LOCK, PRIME};
use crate::hands::{FIRST, next_reply};
use crate::honest::{known, mixed};
use cipher::Cipher;
use session::{Replies, Reply, Script, Step, run, run_and_audit, run_two};
use std::alloc::Global;
use std::process::Abort;
use std::test::Fail;
use table::call::Call;
use table::fault::TableFault;
use table::record::Phase;
use table::table::Table;
use verdict::audit;

// A table on which every move of the script is made.
fn played<C: Cipher>(heap: Global, cipher: &C, script: &Script) -> Result<Table, Fail> {
    let mut table = Table::start(heap, script.seats, script.cards)?;
    for step in script.steps.iter() {
        if let Step::Move(call) = step {
            let _ = table.make(cipher, call)?;
        }
    }
    Ok(table)
}

// The first lock is not one of the other cipher.
fn check_ciphers<C: Cipher, D: Cipher>(
    rt: &(impl Abort + AllocGlobal),
    cipher: &C,
    other: &D,
    script: &Script,
) -> Result<(), Fail> {
    let table = played(rt.alloc(), cipher, script)?;
    assert_eq!(rt; audit(&table, cipher), Ok(None));
    assert_eq!(rt; audit(&table, other), Ok(Some(FIRST_LOCK)));
    let heap = rt.alloc();
    assert_eq!(rt; run_and_audit(heap, cipher, script, cipher), Ok(Ok(None)));
    assert_eq!(rt;
        run_and_audit(heap, cipher, script, other),
        Ok(Ok(Some(FIRST_LOCK)))
    );
    Ok(())
}

// Key 7 is lawful over the binary field only.
#[test]
fn other_cipher(rt: HostRuntime) -> Result<(), Fail> {
    let heap = rt.alloc();
    check_ciphers(&rt, &PRIME, &BINARY, &known(heap, &PRIME, (5, 5))?)?;
    check_ciphers(&rt, &BINARY, &PRIME, &known(heap, &BINARY, (5, 5))?)?;
    check_ciphers(&rt, &BINARY, &PRIME, &known(heap, &BINARY, (7, 5))?)
}

// Before the last phase, while disclosures are missing, and where there is no table.
#[test]
fn audits_refused(rt: HostRuntime) -> Result<(), Fail> {
    let mut script = known(rt.alloc(), &PRIME, (5, 5))?;
    let _ = script.steps.pop();
    let _ = script.steps.pop();
    let few = run_and_audit(rt.alloc(), &PRIME, &script, &BINARY);
    assert_eq!(rt; few, Ok(Err(TableFault::FewDisclosures(1))));
    script.steps.truncate(2);
    let early = run_and_audit(rt.alloc(), &PRIME, &script, &BINARY);
    assert_eq!(rt; early, Ok(Err(TableFault::WrongPhase(Phase::Dealing))));
    script.seats = 9;
    let none = run_and_audit(rt.alloc(), &PRIME, &script, &BINARY);
    assert_eq!(rt; none, Err(TableFault::OutsideLimits));
    Ok(())
}

fn check_same(rt: &impl Abort, replies: Replies, due: Replies) {
    assert_eq!(rt; replies, due);
}

// Each script answers as it does alone.
fn check_two<C: Cipher, D: Cipher>(
    rt: &(impl Abort + AllocGlobal),
    first: (&C, &Script),
    second: (&D, &Script),
) {
    let (one, other) = run_two(rt.alloc(), first, second);
    check_same(rt, one, run(rt.alloc(), first.0, first.1));
    check_same(rt, other, run(rt.alloc(), second.0, second.1));
}

// Under two ciphers, and under one that is not that of the calls.
#[test]
fn two_scripts(rt: HostRuntime) -> Result<(), Fail> {
    let one = known(rt.alloc(), &PRIME, (5, 5))?;
    let other = mixed(rt.alloc(), &BINARY)?;
    check_two(&rt, (&PRIME, &one), (&BINARY, &other));
    check_two(&rt, (&PRIME, &other), (&PRIME, &one));
    Ok(())
}

#[test]
fn two_scripts_one_outside_limits(rt: HostRuntime) -> Result<(), Fail> {
    let inside = known(rt.alloc(), &PRIME, (5, 5))?;
    let mut outside = known(rt.alloc(), &BINARY, (5, 5))?;
    outside.seats = 9;
    let refused = run(rt.alloc(), &BINARY, &outside);
    check_same(&rt, refused, Err(TableFault::OutsideLimits));
    check_two(&rt, (&BINARY, &outside), (&PRIME, &inside));
    Ok(())
}

// Makes a call, after others that are refused, and makes it again, which is refused too unless
// it is a close.
fn make_among<C: Cipher>(
    rt: &impl Abort,
    table: &mut Table,
    cipher: &C,
    call: &Call,
    others: &[Call],
) -> Result<usize, Fail> {
    for other in others {
        assert!(rt; table.make(cipher, other).is_err());
    }
    let number = table.make(cipher, call)?;
    let closes = matches!(call, Call::Close);
    assert!(rt; closes || table.make(cipher, call).is_err());
    Ok(number)
}

// Every accepted call answers what is due, however many are refused before and after it.
fn play_among<C: Cipher>(
    rt: &impl Abort,
    table: &mut Table,
    cipher: &C,
    script: &Script,
    others: &[Call],
) -> Result<(), Fail> {
    let mut count = FIRST;
    for step in script.steps.iter() {
        if let Step::Move(call) = step {
            let number = make_among(rt, table, cipher, call, others)?;
            let due = next_reply(&mut count, step, None);
            assert_eq!(rt; Reply::Entered(number), due);
        }
    }
    Ok(())
}

// The others are refused whenever they come.
fn check_among<C: Cipher>(rt: &(impl Abort + AllocGlobal), cipher: &C) -> Result<(), Fail> {
    let heap = rt.alloc();
    let deck = Vec::new(heap);
    let order = Vec::new(heap);
    let (seat, key, value) = (255, 0, 0);
    let others = [
        Call::Lock { seat, deck },
        Call::Draw { seat, place: 255 },
        Call::Share { seat, value },
        Call::Show { draw: 255, card: 0 },
        Call::Disclose { seat, key, order },
    ];
    let mut table = Table::start(heap, 8, 52)?;
    play_among(rt, &mut table, cipher, &mixed(heap, cipher)?, &others)?;
    assert_eq!(rt; audit(&table, cipher), Ok(None));
    Ok(())
}

#[test]
fn refused_calls_in_between(rt: HostRuntime) -> Result<(), Fail> {
    check_among(&rt, &PRIME)?;
    check_among(&rt, &BINARY)
}
