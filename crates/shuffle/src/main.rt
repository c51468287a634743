// Two seats lock and shuffle five cards over each field, and open them again.
#![tactic(auto)]

mod opening;
mod shown;
mod steps;

use binary::BinaryField;
use cipher::Cipher;
use power::power_cipher::PowerCipher;
use prime::PrimeField;
use refusal::Refusal;
use std::io;
use steps::{SIZE, shuffle_twice};

fn main(rt: HostRuntime) -> io::Result<()> {
    show_shuffle(&rt, "prime", &PowerCipher { field: PrimeField })?;
    show_shuffle(&rt, "binary", &PowerCipher { field: BinaryField })
}

fn show_shuffle<C: Cipher>(rt: &HostRuntime, field: &str, cipher: &C) -> io::Result<()> {
    println!(rt; "Two seats lock and shuffle {SIZE} cards over the {field} field.")?;
    match shuffle_twice(cipher) {
        Ok(steps) => println!(rt; "{steps}"),
        Err(fault) => println!(rt; "  That is {}.", Refusal::from(fault)),
    }
}
