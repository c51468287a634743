// The audit: whether a hand was clean, or the first entry that is not honest.
#![tactic(auto)]

mod hearing;
mod honesty;
mod progress;
mod reading;

ghost use Rattle.std.specs.Prelude.{◌≡◌, Some};
ghost use Rattle.table.specs.Model.{state_of};
ghost use Rattle.verdict.specs.Tables.{audit_answer};
ghost use Rattle.verdict.specs.Printed.{kind_printed, finding_printed};

use cipher::Cipher;
use hearing::Hearing;
use std::fmt;
use table::fault::TableFault;
use table::record::Phase;
use table::table::Table;

#[derive(Clone, Copy, PartialEq, Eq, Debug)]
pub enum Kind {
    Lock,
    Share,
    Show,
}

impl fmt::Display for Kind {
    ghost output = { λ kind. Some (kind_printed kind) };

    fn fmt<W: fmt::Write>(&self, f: &mut fmt::Formatter<W>) -> fmt::Result {
        f.write_str(match self {
            Kind::Lock => "lock",
            Kind::Share => "share",
            Kind::Show => "show",
        })
    }
}

// The first entry that is not honest.
#[derive(Clone, Copy, PartialEq, Eq, Debug)]
pub struct Finding {
    pub entry: usize,
    pub seat: u8,
    pub kind: Kind,
}

impl fmt::Display for Finding {
    ghost output = { λ finding. Some (finding_printed finding) };

    fn fmt<W: fmt::Write>(&self, f: &mut fmt::Formatter<W>) -> fmt::Result {
        let Finding { entry, seat, kind } = *self;
        write!(f, "entry {entry} seat {seat} {kind}")
    }
}

// The first lock, share or show that is not what the disclosed keys and orders make it; none if
// the hand was clean. Refused before the last phase, and while a disclosure is missing.
pub fn audit<C: Cipher>(table: &Table, cipher: &C) -> Result<Option<Finding>, TableFault>
    ensures { result ≡ audit_answer (C.Cipher.meaning cipher.now) (state_of table.now) }
{
    let record = table.record();
    match record.phase {
        Phase::Audit => {}
        phase => return Err(TableFault::WrongPhase(phase)),
    }
    let disclosed = record.disclosures.len() as u8;
    if disclosed < record.seats {
        return Err(TableFault::FewDisclosures(disclosed));
    }
    Ok(Hearing { record, cipher }.first_finding())
}
