// Two seats deal one card over each field, and every step is printed.
#![tactic(auto)]

mod steps;

use binary::BinaryField;
use cipher::Cipher;
use cipher::fault::CipherFault;
use power::power_cipher::PowerCipher;
use prime::PrimeField;
use refusal::Refusal;
use std::io;
use steps::deal_card;

const CARD: u8 = 30;

// The keys of seat 0 and of seat 1, who owns the card.
const KEYS: (u32, u32) = (5, 1000000007);

fn main(rt: HostRuntime) -> io::Result<()> {
    let over_prime = PowerCipher { field: PrimeField };
    let over_binary = PowerCipher { field: BinaryField };
    // 7 divides the order of the prime field, and the other key is the order of the binary one
    show_deal(&rt, "prime", &over_prime, 7)?;
    show_deal(&rt, "binary", &over_binary, 2147483647)
}

fn show_deal<C: Cipher>(
    rt: &HostRuntime,
    field: &str,
    cipher: &C,
    unlawful: u32,
) -> io::Result<()> {
    println!(rt; "Card {CARD} is dealt to seat 1 over the {field} field.")?;
    match deal_card(cipher, CARD, KEYS) {
        Ok(deal) => print!(rt; "{deal}")?,
        Err(fault) => println!(rt; "The deal is {}.", Refusal::from(fault))?,
    }
    show_lock(rt, cipher, unlawful, 9)?;
    show_lock(rt, cipher, KEYS.0, 0)
}

fn show_lock<C: Cipher>(rt: &HostRuntime, cipher: &C, key: u32, value: u32) -> io::Result<()> {
    print!(rt; "  Locking {value} under key {key}")?;
    match cipher.lock(key, value) {
        Ok(locked) => println!(rt; " gives {locked}."),
        Err(fault) => println!(rt; " is {}.", Refusal::from(fault)),
    }
}
