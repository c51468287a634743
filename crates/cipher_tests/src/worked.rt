// The worked numbers, run.
use binary::BinaryField;
use cipher::Cipher;
use cipher::fault::CipherFault;
use power::power_cipher::PowerCipher;
use prime::PrimeField;

#[test]
fn prime_locks(rt: HostRuntime) {
    let cipher = PowerCipher { field: PrimeField };
    assert_eq!(rt; cipher.lock(5, 49), Ok(282475249));
    assert_eq!(rt; cipher.lock(5, 282475249), Ok(2007237709));
    assert_eq!(rt; cipher.lock(1717986917, 282475249), Ok(49));
    assert_eq!(rt; cipher.lock(7, 49), Err(CipherFault::UnlawfulKey(7)));
}

// The inverse of 5 is taken modulo the order 2147483646, not modulo the prime 2147483647.
#[test]
fn prime_undo_keys(rt: HostRuntime) {
    let cipher = PowerCipher { field: PrimeField };
    assert_eq!(rt; cipher.undo_key(5), Ok(1717986917));
    assert_ne!(rt; cipher.undo_key(5), Ok(858993459));
    assert_ne!(rt; cipher.lock(858993459, 282475249), Ok(49));
    assert_eq!(rt; cipher.undo_key(7), Err(CipherFault::UnlawfulKey(7)));
}

// A value under a lock may be the code of another card.
#[test]
fn locked_value_misread(rt: HostRuntime) {
    let cipher = PowerCipher { field: PrimeField };
    assert_eq!(rt; cipher::read_card(&cipher, 49), Some(0));
    assert_eq!(rt; cipher::read_card(&cipher, 282475249), Some(4));
    assert_eq!(rt; cipher::read_card(&cipher, 2007237709), Some(24));
    assert_eq!(rt; cipher::read_card(&cipher, 3), None);
}

#[test]
fn binary_numbers(rt: HostRuntime) {
    let cipher = PowerCipher { field: BinaryField };
    assert_eq!(rt; cipher.code(30), Ok(9));
    assert_eq!(rt; cipher.undo_key(7), Ok(1840700269));
    assert_eq!(rt; cipher.lock(2, 1073741824), Ok(536870930));
    assert_eq!(rt; cipher::read_card(&cipher, 9), Some(30));
}
