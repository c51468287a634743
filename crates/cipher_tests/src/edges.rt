// Values, keys and cards at the edges of what is taken.
use binary::BinaryField;
use cipher::Cipher;
use cipher::fault::CipherFault;
use field::Field;
use power::power_cipher::PowerCipher;
use prime::PrimeField;
use refusal::Refusal;
use std::process::Abort;

// Of a field with the given last number and order.
fn check_edges<F: Field>(rt: &impl Abort, cipher: &PowerCipher<F>, last: u32, order: u32) {
    assert_eq!(rt; cipher.lock(1, last), Ok(last));
    assert!(rt; cipher.is_value(1) && cipher.is_value(last));
    for value in [0, last.wrapping_add(1), u32::MAX] {
        let refused = CipherFault::NotValue { place: 0, value };
        assert_eq!(rt; cipher.lock(1, value), Err(refused));
        assert!(rt; !cipher.is_value(value));
    }
    let most = order.wrapping_sub(1);
    assert!(rt; cipher.is_lawful(1) && cipher.is_lawful(most));
    for key in [0, order, u32::MAX] {
        assert!(rt; !cipher.is_lawful(key));
    }
    assert_eq!(rt; cipher.last_key(), most);
    assert_eq!(rt; cipher.undo_key(1), Ok(1));
    assert_eq!(rt; cipher.undo_key(most), Ok(most));
}

// A key is looked at before a value.
fn check_refusals<C: Cipher>(rt: &impl Abort, cipher: &C, order: u32) {
    for key in [0, order, u32::MAX] {
        assert_eq!(rt; cipher.undo_key(key), Err(CipherFault::UnlawfulKey(key)));
        assert_eq!(rt; cipher.lock(key, 0), Err(CipherFault::UnlawfulKey(key)));
    }
    assert!(rt; cipher.code(51).is_ok());
    assert_eq!(rt; cipher.code(52), Err(CipherFault::NoCard(52)));
    assert_eq!(rt; cipher.code(255), Err(CipherFault::NoCard(255)));
}

#[test]
fn prime_edges(rt: HostRuntime) {
    let cipher = PowerCipher { field: PrimeField };
    check_edges(&rt, &cipher, 2147483646, 2147483646);
    check_refusals(&rt, &cipher, 2147483646);
    assert_eq!(rt; cipher.mark(), 1);
}

#[test]
fn binary_edges(rt: HostRuntime) {
    let cipher = PowerCipher { field: BinaryField };
    check_edges(&rt, &cipher, 2147483647, 2147483647);
    check_refusals(&rt, &cipher, 2147483647);
    assert_eq!(rt; cipher.mark(), 2);
}

#[test]
fn refusals_as_told(rt: HostRuntime) {
    let value = Refusal::from(CipherFault::NotValue { place: 0, value: 9 });
    assert_eq!(rt;
        value,
        Refusal {
            number: 5,
            first: Some(0),
            second: Some(9),
        }
    );
    let card = Refusal::from(CipherFault::NoCard(52));
    assert_eq!(rt;
        card,
        Refusal {
            number: 14,
            first: Some(52),
            second: None,
        }
    );
    let key = Refusal::from(CipherFault::UnlawfulKey(7));
    assert_eq!(rt;
        key,
        Refusal {
            number: 16,
            first: Some(7),
            second: None,
        }
    );
}
