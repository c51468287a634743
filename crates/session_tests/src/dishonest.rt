// Hands with dishonest calls: the audit names the first of them.
use crate::calls::{BINARY, PRIME};
use crate::hands::check_hand;
use crate::honest::{known, mixed};
use cipher::Cipher;
use session::{Script, Step};
use std::process::Abort;
use std::test::Fail;
use table::call::Call;
use verdict::{Finding, Kind};

// Makes a call another one that is accepted too. Of a lock it changes one value.
fn spoil_call(call: &mut Call, place: usize) {
    match call {
        Call::Lock { deck, .. } => {
            if let Some(value) = deck.get_mut(place) {
                *value = 1;
            }
        }
        Call::Share { value, .. } => *value = 1,
        Call::Show { card, .. } => *card = if *card < 2 { 2 } else { 0 },
        Call::Disclose { key, .. } => *key = 13,
        _ => {}
    }
}

fn spoil(script: &mut Script, at: usize, place: usize) {
    if let Some(Step::Move(call)) = script.steps.get_mut(at) {
        spoil_call(call, place);
    }
}

// A call of the known hand by its place in the list, and what the audit finds if it alone is
// spoilt.
#[derive(Clone, Copy)]
struct Spoilt {
    call: usize,
    entry: usize,
    seat: u8,
    kind: Kind,
}

// Closes are calls and no entries. A wrong key makes its seat's lock dishonest.
static KNOWN_FINDINGS: [Spoilt; 8] = [
    Spoilt {
        call: 0,
        entry: 0,
        seat: 0,
        kind: Kind::Lock,
    },
    Spoilt {
        call: 1,
        entry: 1,
        seat: 1,
        kind: Kind::Lock,
    },
    Spoilt {
        call: 3,
        entry: 3,
        seat: 0,
        kind: Kind::Share,
    },
    Spoilt {
        call: 5,
        entry: 5,
        seat: 1,
        kind: Kind::Share,
    },
    Spoilt {
        call: 7,
        entry: 6,
        seat: 1,
        kind: Kind::Show,
    },
    Spoilt {
        call: 8,
        entry: 7,
        seat: 0,
        kind: Kind::Show,
    },
    Spoilt {
        call: 10,
        entry: 1,
        seat: 1,
        kind: Kind::Lock,
    },
    Spoilt {
        call: 11,
        entry: 0,
        seat: 0,
        kind: Kind::Lock,
    },
];

// With two calls spoilt, or the same one, the audit finds the first.
fn check_spoilt<C: Cipher>(
    rt: &(impl Abort + AllocGlobal),
    cipher: &C,
    one: Spoilt,
    other: Spoilt,
) -> Result<(), Fail> {
    let mut script = known(rt.alloc(), cipher, (5, 5))?;
    spoil(&mut script, one.call, 2);
    if other.call != one.call {
        spoil(&mut script, other.call, 0);
    }
    let first = if one.entry <= other.entry { one } else { other };
    let Spoilt {
        entry,
        seat,
        kind,
        ..
    } = first;
    check_hand(rt, cipher, &script, Some(Finding { entry, seat, kind }))
}

fn check_pairs<C: Cipher>(rt: &(impl Abort + AllocGlobal), cipher: &C) -> Result<(), Fail> {
    for one in &KNOWN_FINDINGS {
        for other in &KNOWN_FINDINGS {
            check_spoilt(rt, cipher, *one, *other)?;
        }
    }
    Ok(())
}

#[test]
fn known_hand_spoilt(rt: HostRuntime) -> Result<(), Fail> {
    check_pairs(&rt, &PRIME)?;
    check_pairs(&rt, &BINARY)
}

// The seat of a draw by its number.
fn drawer(steps: &[Step], number: u8) -> Option<u8> {
    steps
        .iter()
        .filter_map(|step| match step {
            Step::Move(Call::Draw { seat, .. }) => Some(*seat),
            _ => None,
        })
        .nth(usize::from(number))
}

// Who is to blame for a call, and its kind, if it can be dishonest.
fn blame(steps: &[Step], at: usize) -> Result<Option<(u8, Kind)>, Fail> {
    Ok(match steps.get(at) {
        Some(Step::Move(Call::Lock { seat, .. })) => Some((*seat, Kind::Lock)),
        Some(Step::Move(Call::Share { seat, .. })) => Some((*seat, Kind::Share)),
        Some(Step::Move(Call::Show { draw, .. })) => {
            let seat = drawer(steps, *draw).ok_or("no draw")?;
            Some((seat, Kind::Show))
        }
        _ => None,
    })
}

// Spoils one call of the mixed hand. Those after its 45 calls of the dealing have one close
// before them.
fn check_mixed<C: Cipher>(
    rt: &(impl Abort + AllocGlobal),
    cipher: &C,
    at: usize,
) -> Result<(), Fail> {
    let mut script = mixed(rt.alloc(), cipher)?;
    let Some((seat, kind)) = blame(&script.steps, at)? else {
        return Ok(());
    };
    let entry = if at < 45 { at } else { at.wrapping_sub(1) };
    spoil(&mut script, at, at & 31);
    check_hand(rt, cipher, &script, Some(Finding { entry, seat, kind }))
}

#[test]
fn mixed_hands_spoilt(rt: HostRuntime) -> Result<(), Fail> {
    for at in 0..59usize {
        check_mixed(&rt, &PRIME, at)?;
        check_mixed(&rt, &BINARY, at)?;
    }
    Ok(())
}

// Call 17 of the mixed hand is the share of a draw that is then abandoned.
#[test]
fn abandoned_share_spoilt(rt: HostRuntime) -> Result<(), Fail> {
    let mut script = mixed(rt.alloc(), &PRIME)?;
    spoil(&mut script, 17, 0);
    let found = Finding {
        entry: 17,
        seat: 4,
        kind: Kind::Share,
    };
    check_hand(&rt, &PRIME, &script, Some(found))
}
