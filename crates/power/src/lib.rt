// The power cipher over any field (Pohlig and Hellman, 1978; Shamir, Rivest and Adleman, 1979).
#![tactic(auto)]

mod arithmetic;
pub mod power_cipher;
