// The steps by which two seats deal one card.
ghost use Rattle.std.specs.Prelude.{◌≡◌, Some};
ghost use Rattle.deal.specs.Deal.{deal_answer};
ghost use Rattle.std.specs.Fmt.{WritesOnOk};
ghost use Rattle.deal.specs.Printed.{printed_locking, printed_sharing, printed_opening, printed};

use cipher::fault::CipherFault;
use cipher::{Cipher, read_card};
use std::fmt;

// Every number of the deal, in the order in which it comes up.
#[derive(Clone, Copy)]
pub struct DealtCard {
    pub keys: (u32, u32),
    pub code: u32,
    pub once: u32,
    pub twice: u32,
    // locked by seat 1 first, then by seat 0
    pub swapped: u32,
    pub undo: (u32, u32),
    // with the lock of seat 0 taken off
    pub share: u32,
    // with the owner's own lock taken off too
    pub opened: u32,
    pub card: Option<u8>,
}

// Seat 0 and seat 1 lock a card in turn; seat 0 takes its lock off for seat 1, who opens and reads it.
pub fn deal_card<C: Cipher>(
    cipher: &C,
    card: u8,
    keys: (u32, u32),
) -> Result<DealtCard, CipherFault>
    ensures { result ≡ deal_answer (C.meaning cipher.now) card keys.0 keys.1 }
{
    let code = cipher.code(card)?;
    let once = cipher.lock(keys.0, code)?;
    let twice = cipher.lock(keys.1, once)?;
    let swapped = cipher.lock(keys.0, cipher.lock(keys.1, code)?)?;
    let undo = (cipher.undo_key(keys.0)?, cipher.undo_key(keys.1)?);
    let share = cipher.lock(undo.0, twice)?;
    let opened = cipher.lock(undo.1, share)?;
    let card = read_card(cipher, opened);
    Ok(DealtCard {
        keys,
        code,
        once,
        twice,
        swapped,
        undo,
        share,
        opened,
        card,
    })
}

impl DealtCard {
    // How both locks come on.
    #[tactic(auto, unfolding(crate::specs::Printed::printed_locking))]
    fn write_locking<W: fmt::Write>(&self, f: &mut fmt::Formatter<W>) -> fmt::Result
        ensures { WritesOnOk W.write_str_gives f.old result (printed_locking self.now) f.new }
    {
        let DealtCard { once, twice, .. } = *self;
        let (first, second) = self.keys;
        writeln!(f, "  Seat 0 locks it under key {first}: {once}.")?;
        writeln!(f, "  Seat 1 locks that under key {second}: {twice}.")
    }

    // That the locks may come on in either order, and how that of seat 0 comes off.
    #[tactic(auto, unfolding(crate::specs::Printed::printed_sharing))]
    fn write_sharing<W: fmt::Write>(&self, f: &mut fmt::Formatter<W>) -> fmt::Result
        ensures { WritesOnOk W.write_str_gives f.old result (printed_sharing self.now) f.new }
    {
        let DealtCard { swapped, share, .. } = *self;
        let (first, second) = self.undo;
        writeln!(
            f,
            "  Locked by seat 1 first and then by seat 0 it is {swapped} too."
        )?;
        writeln!(f, "  The undo keys are {first} and {second}.")?;
        writeln!(f, "  Seat 0 shares, its own lock taken off: {share}.")
    }

    // How that of seat 1 comes off, and the card that is read.
    #[tactic(auto, unfolding(crate::specs::Printed::printed_opening))]
    fn write_opening<W: fmt::Write>(&self, f: &mut fmt::Formatter<W>) -> fmt::Result
        ensures { WritesOnOk W.write_str_gives f.old result (printed_opening self.now) f.new }
    {
        writeln!(f, "  Seat 1 takes its own lock off: {}.", self.opened)?;
        match self.card {
            Some(card) => writeln!(f, "  That is the code of card {card}."),
            None => writeln!(f, "  That is the code of no card."),
        }
    }
}

// Every step on a line of its own.
impl fmt::Display for DealtCard {
    ghost output = { λ deal. Some (printed deal) };

    fn fmt<W: fmt::Write>(&self, f: &mut fmt::Formatter<W>) -> fmt::Result {
        writeln!(f, "  The card's code is {}.", self.code)?;
        self.write_locking(f)?;
        self.write_sharing(f)?;
        self.write_opening(f)
    }
}
