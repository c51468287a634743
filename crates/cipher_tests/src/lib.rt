// Runs the fields and the ciphers: worked numbers, edges, round trips, and products computed slowly.
#![tactic(auto)]

#[cfg(test)]
mod edges;
#[cfg(test)]
mod products;
#[cfg(test)]
mod round_trips;
#[cfg(test)]
mod worked;
