// The table: what is entered, by whom and when, and every refusal.
#![tactic(auto)]

pub mod call;
mod calls;
mod changes;
pub mod fault;
mod make;
mod queries;
pub mod record;
pub mod table;
