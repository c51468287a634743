// Runs the table: a whole hand, and every refusal of its moves.
#![tactic(auto)]

#[cfg(test)]
mod dealing;
#[cfg(test)]
mod ends;
#[cfg(test)]
mod hands;
#[cfg(test)]
mod locking;
