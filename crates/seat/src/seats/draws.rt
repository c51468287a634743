// Numbers drawn by Park and Miller's generator, and what a seat makes of them.
ghost use Rattle.std.specs.Prelude.{◌≡◌, ◌-◌, ◌≤◌, cond, length};
ghost use Rattle.cipher.specs.Cipher.{Lawful};
ghost use Rattle.permutation.specs.Permutation.{upto};
ghost use Rattle.seat.specs.Generator.{drawn, lawful_from, shuffled};

use cipher::Cipher;

const FACTOR: u64 = 16807;

const MODULUS: u64 = 2147483647;

// The largest start, since the modulus draws 0.
pub(crate) const LAST_START: u32 = (MODULUS - 1) as u32;

// The number drawn after z.
pub(crate) fn drawn_after(z: u32) -> u32
    ensures { result ≡ drawn z }
{
    (FACTOR * u64::from(z) % MODULUS) as u32
}

// The next lawful key from a number on, or from 1 on if it is above the last key.
pub(crate) fn next_lawful<C: Cipher>(cipher: &C, first: u32) -> u32
    ensures meant { result ≡ lawful_from (C.Cipher.meaning cipher.now) first }
    ensures lawful { Lawful (C.Cipher.meaning cipher.now) result }
{
    let last = cipher.last_key();
    let first = if first > last { 1 } else { first };
    // The last key is lawful, so it is the next where none before it is.
    (first..last)
        .find(|key| cipher.is_lawful(*key))
        .unwrap_or(last)
}

// Fills the order with its own places, and shuffles it by the numbers drawn after z.
pub(crate) fn shuffle(mut z: u32, order: &mut [u8])
    requires { length order.old ≤ 52 }
    ensures { order.new ≡ shuffled (length order.old - 1) z (upto (length order.old)) }
{
    number_places(order);
    for i in (1..order.len()).rev() {
        z = drawn_after(z);
        order.swap(i, z as usize % (i + 1));
    }
}

// Writes 0, 1, 2 and so on.
fn number_places(order: &mut [u8])
    requires { length order.old ≤ 52 }
    ensures { order.new ≡ upto (length order.old) }
{
    for (i, place) in order.iter_mut().enumerate() {
        *place = i as u8;
    }
}
