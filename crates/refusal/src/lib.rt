// A refusal as it is told to whoever asked: its number, and what is returned with the number.
#![tactic(auto)]

ghost use Rattle.std.specs.Prelude.{◌≡◌, Some};
ghost use Rattle.refusal.specs.Refused.{refused, refused_with, refused_with_both};
ghost use Rattle.refusal.specs.Printed.{printed};

use std::fmt;

#[derive(Clone, Copy, PartialEq, Eq, Debug)]
pub struct Refusal {
    pub number: u8,
    pub first: Option<u64>,
    pub second: Option<u64>,
}

impl Refusal {
    pub fn alone(number: u8) -> Refusal
        ensures { result ≡ refused number }
    {
        Refusal {
            number,
            first: None,
            second: None,
        }
    }

    pub fn with(number: u8, value: u64) -> Refusal
        ensures { result ≡ refused_with number value }
    {
        Refusal {
            number,
            first: Some(value),
            second: None,
        }
    }

    pub fn with_both(number: u8, first: u64, second: u64) -> Refusal
        ensures { result ≡ refused_with_both number first second }
    {
        Refusal {
            number,
            first: Some(first),
            second: Some(second),
        }
    }
}

// The number, and what is returned with it.
impl fmt::Display for Refusal {
    ghost output = { λ refusal. Some (printed refusal) };

    fn fmt<W: fmt::Write>(&self, f: &mut fmt::Formatter<W>) -> fmt::Result {
        write!(f, "refused by {}", self.number)?;
        if let Some(first) = self.first {
            write!(f, " with {first}")?;
        }
        if let Some(second) = self.second {
            write!(f, " and {second}")?;
        }
        Ok(())
    }
}
