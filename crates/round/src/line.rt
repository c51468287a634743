// How a call and its answer are printed.
ghost use Rattle.std.specs.Prelude.{◌++◌, Some, codes};
ghost use Rattle.std.specs.Fmt.{◌++?◌, WritesOnOk};
ghost use Rattle.session.specs.Printed.{printed};
ghost use Rattle.round.specs.Printed.{reply_printed};

use refusal::Refusal;
use session::{Reply, Step};
use std::fmt;
use table::call::Call;
use table::fault::TableFault;

// A step and what it answered.
#[derive(Clone, Copy)]
pub struct Line<'a> {
    pub step: &'a Step,
    pub reply: &'a Result<Reply, TableFault>,
}

impl Line<'_> {
    // A close is answered by the phase that it began.
    fn write_reply<W: fmt::Write>(&self, f: &mut fmt::Formatter<W>) -> fmt::Result
        ensures { WritesOnOk W.write_str_gives f.old result (reply_printed self.now.step.now self.now.reply.now) f.new }
    {
        match (self.step, self.reply) {
            (_, Err(fault)) => write!(f, "{}", Refusal::from(*fault)),
            (Step::Move(Call::Close), Ok(Reply::Entered(phase))) => write!(f, "phase {phase}"),
            (_, Ok(Reply::Entered(entry))) => write!(f, "entry {entry}"),
            (_, Ok(Reply::Audited(None))) => write!(f, "clean"),
            (_, Ok(Reply::Audited(Some(finding)))) => write!(f, "{finding}"),
        }
    }
}

impl fmt::Display for Line<'_> {
    ghost output = { λ line. printed line.step.now ++? Some (codes ": " ++ reply_printed line.step.now line.reply.now ++ codes ".") };

    fn fmt<W: fmt::Write>(&self, f: &mut fmt::Formatter<W>) -> fmt::Result {
        write!(f, "{}: ", self.step)?;
        self.write_reply(f)?;
        write!(f, ".")
    }
}
