// Runs orders and seats: what they accept, what they refuse, and worked numbers.
#![tactic(auto)]

#[cfg(test)]
mod either;
#[cfg(test)]
mod generated;
#[cfg(test)]
mod keyed;
#[cfg(test)]
mod lists;
#[cfg(test)]
mod locking;
#[cfg(test)]
mod orders;
#[cfg(test)]
mod rearranging;
