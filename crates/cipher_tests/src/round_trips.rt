// Locks undone, and two locks in both orders, at keys and values that a generator draws.
use binary::BinaryField;
use cipher::Cipher;
use power::power_cipher::PowerCipher;
use prime::PrimeField;
use std::process::Abort;
use std::test::Fail;

// The next number of a linear generator, below 2^31.
fn drawn(state: &mut u32) -> u32 {
    *state = state.wrapping_mul(1664525).wrapping_add(1013904223);
    *state >> 1
}

// A drawn key, or the nearest lawful one below it.
fn drawn_key<C: Cipher>(cipher: &C, state: &mut u32) -> u32 {
    let start = drawn(state);
    (0..1000u32)
        .map(|step| start.wrapping_sub(step))
        .find(|key| cipher.is_lawful(*key))
        .unwrap_or(1)
}

fn check_round_trips<C: Cipher>(rt: &impl Abort, cipher: &C) -> Result<(), Fail> {
    let mut state = 1;
    for _ in 0..150u32 {
        let first = drawn_key(cipher, &mut state);
        let second = drawn_key(cipher, &mut state);
        let value = drawn(&mut state).max(1);
        let once = cipher.lock(first, value)?;
        assert_eq!(rt; cipher.lock(cipher.undo_key(first)?, once)?, value);
        assert_eq!(rt; cipher.undo_key(cipher.undo_key(first)?)?, first);
        let other = cipher.lock(second, value)?;
        assert_eq!(rt; cipher.lock(second, once)?, cipher.lock(first, other)?);
    }
    Ok(())
}

#[test]
fn prime_round_trips(rt: HostRuntime) -> Result<(), Fail> {
    check_round_trips(&rt, &PowerCipher { field: PrimeField })
}

#[test]
fn binary_round_trips(rt: HostRuntime) -> Result<(), Fail> {
    check_round_trips(&rt, &PowerCipher { field: BinaryField })
}
