// The field of the numbers below the prime 2147483647.
#![tactic(auto)]

ghost use Rattle.prime.specs.Prime.{prime_field};
ghost use Rattle.prime.specs.Laws.{prime_laws};

use field::Field;

const PRIME: u32 = 2147483647;

// The square of 7, so that its powers are squares.
const BASE: u32 = 49;

const MARK: u8 = 1;

#[derive(Clone, Copy)]
pub struct PrimeField;

impl Field for PrimeField {
    ghost meaning = { λ _. prime_field };

    ghost lawful = { λ s. prime_laws };

    fn last(&self) -> u32 {
        PRIME - 1
    }

    fn times(&self, a: u32, b: u32) -> u32 {
        (u64::from(a) * u64::from(b) % u64::from(PRIME)) as u32
    }

    // As many as there are numbers other than 0.
    fn order(&self) -> u32 {
        self.last()
    }

    fn base(&self) -> u32 {
        BASE
    }

    fn mark(&self) -> u8 {
        MARK
    }
}
