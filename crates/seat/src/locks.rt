// Locking a whole deck by a key and an order.
ghost use Rattle.std.specs.Prelude.{◌≡◌, ◌≤◌, true, List, map, length, Ok};
ghost use Rattle.cipher.specs.Decks.{deck_answer, locked_deck};
ghost use Rattle.permutation.specs.Permutation.{permutes};
ghost use Rattle.seat.specs.Answers.{lengths_then_key, filled};

use crate::fault::SeatFault;
use cipher::fault::CipherFault;
use cipher::{Cipher, check_deck};
use permutation::blank::Blank;
use permutation::{fill, rearrange};

// Refused, it leaves a target of blanks.
pub(crate) fn lock_deck<C: Cipher>(
    cipher: &C,
    key: u32,
    order: &[u8],
    deck: &[u32],
    target: &mut [u32],
) -> Result<(), SeatFault>
    requires few { length order.now ≤ 52 }
    requires ordered { permutes order.now ≡ true }
    ensures answer { result ≡ lengths_then_key (C.Cipher.meaning cipher.now) key (length order.now) deck.now (length target.old) }
    ensures written { target.new ≡ filled result (locked_deck (C.Cipher.meaning cipher.now) key order.now deck.now) 0 (length target.old) }
{
    if let Err(fault) = check_lock(cipher, key, order.len(), deck, target.len()) {
        fill(target, u32::blank());
        return Err(fault);
    }
    rearrange(deck, order, target)?;
    lock_each(cipher, key, target);
    Ok(())
}

fn check_lock<C: Cipher>(
    cipher: &C,
    key: u32,
    size: usize,
    deck: &[u32],
    target: usize,
) -> Result<(), SeatFault>
    ensures { result ≡ lengths_then_key (C.Cipher.meaning cipher.now) key size deck.now target }
{
    if deck.len() != size {
        return Err(SeatFault::WrongLength(deck.len()));
    }
    if target != size {
        return Err(SeatFault::WrongLength(target));
    }
    if !cipher.is_lawful(key) {
        return Err(SeatFault::Cipher(CipherFault::UnlawfulKey(key)));
    }
    check_deck(cipher, deck)?;
    Ok(())
}

// Locks every value of the deck where it stands.
fn lock_each<C: Cipher>(cipher: &C, key: u32, deck: &mut [u32])
    requires lawful { (C.Cipher.meaning cipher.now).lawful key ≡ true }
    requires values { deck_answer (C.Cipher.meaning cipher.now) 0 deck.old ≡ Ok tt }
    ensures { deck.new ≡ map (λ v. (C.Cipher.meaning cipher.now).lock key v) deck.old }
{
    for value in deck.iter_mut() {
        *value = cipher.lock(key, *value).unwrap_or(0);
    }
}
