// The field of 2^31 elements: polynomials over two elements modulo x^31 + x^3 + 1, bit i of a number being the coefficient of x^i.
#![tactic(auto)]

ghost use Rattle.std.specs.Prelude.{◌≡◌};
ghost use Rattle.binary.specs.Binary.{binary_field, binary_times, folded};
ghost use Rattle.binary.specs.Carryless.{carryless, Remainder};
ghost use Rattle.binary.specs.Laws.{binary_laws};

use field::Field;

const MARK: u8 = 2;

#[derive(Clone, Copy)]
pub struct BinaryField;

impl Field for BinaryField {
    ghost meaning = { λ _. binary_field };

    ghost lawful = { λ s. binary_laws };

    fn last(&self) -> u32 {
        0x7fff_ffff
    }

    fn times(&self, a: u32, b: u32) -> u32
        ensures meant { result ≡ binary_times a b }
        ensures remainder { Remainder (carryless a b) result }
    {
        remainder(product(a, b))
    }

    // As many as there are numbers other than 0.
    fn order(&self) -> u32 {
        self.last()
    }

    // The polynomial x.
    fn base(&self) -> u32 {
        0b10
    }

    fn mark(&self) -> u8 {
        MARK
    }
}

// The product of two polynomials: b times each bit of a, summed without carries.
fn product(a: u32, b: u32) -> u64
    ensures { result ≡ carryless a b }
{
    (0..32u32)
        .map(|i| u64::from(a & (1 << i)) * u64::from(b))
        .fold(0, |sum, part| sum ^ part)
}

// Of 64 bits the first fold leaves 36, the second 31.
fn remainder(m: u64) -> u32
    ensures { Remainder m result }
{
    fold(fold(m)) as u32
}

// The same modulo the modulus, and shorter: x^31 is x^3 + 1.
fn fold(m: u64) -> u64
    ensures { result ≡ folded m }
{
    let high = m >> 31;
    let low = m & ((1 << 31) - 1);
    low ^ ((high << 3) ^ high)
}
