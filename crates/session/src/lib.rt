// Lists of calls made on new tables, and the law over the runs of any two.
#![tactic(auto)]

ghost use Rattle.std.specs.Prelude.{◌≡◌, true, []};
ghost use Rattle.table.specs.Model.{state_of};
ghost use Rattle.table.specs.Rules.{within_limits};
ghost use Rattle.session.specs.Runs.{accepted};
ghost use Rattle.session.specs.Steps.{asked_by, calls_of, step_answer, step_after, RunAnswer, Played, AuditAnswer};
ghost use Rattle.session.specs.Law.{TableLaw, RunsLaw};

use cipher::Cipher;
use std::alloc::Global;
use std::fmt;
use table::call::Call;
use table::fault::TableFault;
use table::table::Table;
use verdict::{Finding, audit};

// A call of a list: one that makes a move, or an audit.
#[derive(Drop)]
pub enum Step {
    Move(Call),
    Audit,
}

impl fmt::Display for Step {
    ghost use Rattle.session.specs.Printed.{printed};

    ghost output = { printed };

    fn fmt<W: fmt::Write>(&self, f: &mut fmt::Formatter<W>) -> fmt::Result {
        match self {
            Step::Move(call) => write!(f, "{call}"),
            Step::Audit => write!(f, "Audit"),
        }
    }
}

// A new table's seats and cards, and the calls to be made on it.
#[derive(Drop)]
pub struct Script {
    pub seats: u8,
    pub cards: u8,
    pub steps: Vec<Step>,
}

// What a call answered: the number of the entry that it made or of the phase that it began, or
// what the audit found, which is none in a clean hand.
#[derive(Clone, Copy, PartialEq, Eq, Debug)]
pub enum Reply {
    Entered(usize),
    Audited(Option<Finding>),
}

// What the calls of a script answered; no table could be had where it is refused.
pub type Replies = Result<Vec<Result<Reply, TableFault>>, TableFault>;

fn answer<C: Cipher>(table: &mut Table, cipher: &C, step: &Step) -> Result<Reply, TableFault>
    ensures answer { result ≡ step_answer (C.Cipher.meaning cipher.now) (state_of table.old) (asked_by step.now) }
    ensures made { state_of table.new ≡ step_after (C.Cipher.meaning cipher.now) (state_of table.old) (asked_by step.now) }
{
    match step {
        Step::Move(call) => table.make(cipher, call).map(Reply::Entered),
        Step::Audit => audit(table, cipher).map(Reply::Audited),
    }
}

// A new table on which each call of the script was made, and what each answered.
fn played<C: Cipher>(
    heap: Global,
    cipher: &C,
    script: &Script,
) -> Result<(Table, Vec<Result<Reply, TableFault>>), TableFault>
    ensures { Played (C.Cipher.meaning cipher.now) script.now result }
{
    let mut table = Table::start(heap, script.seats, script.cards)?;
    let mut replies = Vec::with_capacity(heap, script.steps.len())?;
    for step in script.steps.iter() {
        replies.push_reserved(answer(&mut table, cipher, step));
    }
    Ok((table, replies))
}

// Makes each call of the script on a new table, and tells what each answered.
pub fn run<C: Cipher>(heap: Global, cipher: &C, script: &Script) -> Replies
    ensures { RunAnswer (C.Cipher.meaning cipher.now) script.now result }
{
    let (_, replies) = played(heap, cipher, script)?;
    Ok(replies)
}

// Makes each call of the script on a new table, and then audits the table under a cipher of the
// auditor's, which may be another.
pub fn run_and_audit<C: Cipher, A: Cipher>(
    heap: Global,
    cipher: &C,
    script: &Script,
    auditor: &A,
) -> Result<Result<Option<Finding>, TableFault>, TableFault>
    ensures answer { AuditAnswer (C.Cipher.meaning cipher.now) (A.Cipher.meaning auditor.now) script.now result }
    ensures law { within_limits script.now.seats script.now.cards ≡ true → TableLaw (C.Cipher.meaning cipher.now) script.now.seats script.now.cards (accepted (C.Cipher.meaning cipher.now) script.now.seats script.now.cards [] (calls_of script.now)) }
{
    let (table, _) = played(heap, cipher, script)?;
    Ok(audit(&table, auditor))
}

// Runs two scripts, each under a cipher of its own, which may be the same. Whatever was refused,
// the law over runs holds of both tables after any number of calls.
pub fn run_two<A: Cipher, B: Cipher>(
    heap: Global,
    first: (&A, &Script),
    second: (&B, &Script),
) -> (Replies, Replies)
    ensures first { RunAnswer (A.Cipher.meaning first.entry.0.now) first.entry.1.now result.0 }
    ensures second { RunAnswer (B.Cipher.meaning second.entry.0.now) second.entry.1.now result.1 }
    ensures law { RunsLaw (A.Cipher.meaning first.entry.0.now) first.entry.1.now.seats first.entry.1.now.cards (calls_of first.entry.1.now) (B.Cipher.meaning second.entry.0.now) second.entry.1.now.seats second.entry.1.now.cards (calls_of second.entry.1.now) }
{
    (run(heap, first.0, first.1), run(heap, second.0, second.1))
}
