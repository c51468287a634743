// Runs lists of calls: whole hands, what the audit finds in them, and every refusal.
#![tactic(auto)]

#[cfg(test)]
mod calls;
#[cfg(test)]
mod dishonest;
#[cfg(test)]
mod hands;
#[cfg(test)]
mod honest;
#[cfg(test)]
mod refusals;
#[cfg(test)]
mod several;
