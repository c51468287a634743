// The products of both fields against slow ones that go bit by bit, and powers against repeated products.
use binary::BinaryField;
use cipher::Cipher;
use field::Field;
use power::power_cipher::PowerCipher;
use prime::PrimeField;
use std::process::Abort;
use std::test::Fail;

const SAMPLES: [u32; 12] = [
    0, 1, 2, 3, 49, 65535, 1073741824, 1234567890, 2147483646, 2147483647, 2147483648, 4294967295,
];

// By doubling and adding, each time with the prime taken off.
fn slow_prime(a: u32, b: u32) -> u32 {
    let mut sum = 0u64;
    for i in (0..32u32).rev() {
        sum = sum.wrapping_mul(2) % 2147483647;
        if (a >> i) & 1 == 1 {
            sum = sum.wrapping_add(u64::from(b)) % 2147483647;
        }
    }
    (sum & 0xffff_ffff) as u32
}

// By shifting and summing without carries, each time with x^31 + x^3 + 1 taken off.
fn slow_binary(a: u32, b: u32) -> u32 {
    let reduced = if b >> 31 == 1 { b ^ 0x8000_0009 } else { b };
    let mut sum = 0u32;
    for i in (0..32u32).rev() {
        sum <<= 1;
        if sum >> 31 == 1 {
            sum ^= 0x8000_0009;
        }
        if (a >> i) & 1 == 1 {
            sum ^= reduced;
        }
    }
    sum
}

fn slow_power<F: Field>(field: &F, x: u32, k: u32) -> u32 {
    (0..k).fold(1, |product, _| field.times(product, x))
}

fn check_products<F: Field, S: Fn(u32, u32) -> u32>(rt: &impl Abort, field: &F, slow: S)
    requires { S.IsAlwaysCallable slow }
{
    for a in SAMPLES {
        for b in SAMPLES {
            assert_eq!(rt; field.times(a, b), slow(a, b));
        }
    }
}

fn check_powers<F: Field>(rt: &impl Abort, cipher: &PowerCipher<F>) -> Result<(), Fail> {
    for key in [1, 5, 13, 1009, 65537] {
        assert_eq!(rt;
            cipher.lock(key, 1234567890)?,
            slow_power(&cipher.field, 1234567890, key)
        );
    }
    Ok(())
}

fn check_codes<F: Field>(rt: &impl Abort, cipher: &PowerCipher<F>, base: u32) -> Result<(), Fail> {
    for card in 0..52u8 {
        let k = u32::from(card) + 1;
        assert_eq!(rt; cipher.code(card)?, slow_power(&cipher.field, base, k));
    }
    Ok(())
}

#[test]
fn prime_products(rt: HostRuntime) {
    check_products(&rt, &PrimeField, slow_prime);
}

#[test]
fn binary_products(rt: HostRuntime) {
    check_products(&rt, &BinaryField, slow_binary);
}

#[test]
fn powers(rt: HostRuntime) -> Result<(), Fail> {
    check_powers(&rt, &PowerCipher { field: PrimeField })?;
    check_powers(&rt, &PowerCipher { field: BinaryField })
}

#[test]
fn codes(rt: HostRuntime) -> Result<(), Fail> {
    check_codes(&rt, &PowerCipher { field: PrimeField }, 49)?;
    check_codes(&rt, &PowerCipher { field: BinaryField }, 2)
}
