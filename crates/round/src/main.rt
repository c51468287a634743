// A whole hand is played through the calls of the table, once honestly and once with another card
// shown, and each call is printed with its answer.
#![tactic(auto)]

mod hand;
mod line;

use hand::worked_hand;
use line::Line;
use power::power_cipher::PowerCipher;
use prime::PrimeField;
use refusal::Refusal;
use session::{Replies, Script, run_two};
use std::io;

fn main(rt: HostRuntime) -> io::Result<()> {
    let heap = rt.alloc();
    let cipher = PowerCipher { field: PrimeField };
    let honest = worked_hand(heap, 0)?;
    let other = worked_hand(heap, 2)?;
    let (first, second) = run_two(heap, (&cipher, &honest), (&cipher, &other));
    println!(rt; "Two seats play three cards over the prime field.")?;
    show_run(&rt, &honest, &first)?;
    println!(rt; "The same, with card 2 shown first.")?;
    show_run(&rt, &other, &second)
}

fn show_run(rt: &HostRuntime, script: &Script, replies: &Replies) -> io::Result<()> {
    match replies {
        Err(fault) => println!(rt; ": {}.", Refusal::from(*fault)),
        Ok(replies) => {
            for (step, reply) in script.steps.iter().zip(replies.iter()) {
                println!(rt; "  {}", Line { step, reply })?;
            }
            Ok(())
        }
    }
}
