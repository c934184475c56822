//! How a run ended, and what is told of it. Here alone is said by which fault, or as which line, an end is told.
ghost use Rattle.std.specs.Prelude.{ℕ, ◌≡◌, ◌⊎◌, OnOk, IfErr, Ok, Err, true, false};
ghost use Rattle.eu_program.specs.Ends.{status_of};

use eu_base::Fault;
use eu_journal_audit::AuditFault;
use eu_script::ScriptFault;

/// The exit status of a run without a fault.
pub(crate) const DONE: u8 = 0;

/// The exit status of bad words and of a bad line.
pub(crate) const BAD_INPUT: u8 = 2;

/// The exit status of any other fault, and of an audit whose answer is no.
const FAILED: u8 = 3;

/// How a run ended.
#[derive(Clone, Copy, Debug, PartialEq, Eq)]
pub enum End {
    /// What it was to do is done.
    Done,
    /// So it is, and the answer of its audit is no.
    AnsweredNo,
    /// The line of that number is bad.
    BadLine(u64),
    /// The journal isn't whole.
    NotWhole,
    /// By a fault, which is told by its number.
    Failed(Fault),
}

impl End {
    /// That of a script.
    pub fn of_script(ended: Result<(), ScriptFault>) -> End
        ensures whole { OnOk ended (result ≡ End.Done) }
        ensures bad_line { (line : ℕ) → ended ≡ Err (ScriptFault.BadLine line) → result ≡ End.BadLine line }
        ensures read { ended ≡ Err ScriptFault.Read → result ≡ End.Failed Fault.Read }
        ensures write { ended ≡ Err ScriptFault.Write → result ≡ End.Failed Fault.Write }
        ensures no_memory { ended ≡ Err ScriptFault.OutOfMemory → result ≡ End.Failed Fault.OutOfMemory }
    {
        match ended {
            Ok(()) => End::Done,
            Err(ScriptFault::BadLine(line)) => End::BadLine(line),
            Err(ScriptFault::Read) => End::Failed(Fault::Read),
            Err(ScriptFault::Write) => End::Failed(Fault::Write),
            Err(ScriptFault::OutOfMemory) => End::Failed(Fault::OutOfMemory),
        }
    }

    /// That of the audit of a script.
    pub fn of_audit(ended: Result<bool, ScriptFault>) -> End
        ensures right { ended ≡ Ok true → result ≡ End.Done }
        ensures wrong { ended ≡ Ok false → result ≡ End.AnsweredNo }
        ensures bad_line { (line : ℕ) → ended ≡ Err (ScriptFault.BadLine line) → result ≡ End.BadLine line }
        ensures read { ended ≡ Err ScriptFault.Read → result ≡ End.Failed Fault.Read }
        ensures write { ended ≡ Err ScriptFault.Write → result ≡ End.Failed Fault.Write }
        ensures no_memory { ended ≡ Err ScriptFault.OutOfMemory → result ≡ End.Failed Fault.OutOfMemory }
    {
        match ended {
            Ok(true) => End::Done,
            Ok(false) => End::AnsweredNo,
            Err(fault) => End::of_script(Err(fault)),
        }
    }

    /// That of the audit of a journal.
    pub fn of_journal_audit(ended: Result<bool, AuditFault>) -> End
        ensures right { ended ≡ Ok true → result ≡ End.Done }
        ensures wrong { ended ≡ Ok false → result ≡ End.AnsweredNo }
        ensures bad_line { (line : ℕ) → ended ≡ Err (AuditFault.BadLine line) → result ≡ End.BadLine line }
        ensures early { ended ≡ Err AuditFault.EndsEarly → result ≡ End.NotWhole }
        ensures read { ended ≡ Err AuditFault.Read → result ≡ End.Failed Fault.Read }
        ensures write { ended ≡ Err AuditFault.Write → result ≡ End.Failed Fault.Write }
        ensures no_memory { ended ≡ Err AuditFault.OutOfMemory → result ≡ End.Failed Fault.OutOfMemory }
    {
        match ended {
            Ok(true) => End::Done,
            Ok(false) => End::AnsweredNo,
            Err(AuditFault::BadLine(line)) => End::BadLine(line),
            Err(AuditFault::EndsEarly) => End::NotWhole,
            Err(AuditFault::Read) => End::Failed(Fault::Read),
            Err(AuditFault::Write) => End::Failed(Fault::Write),
            Err(AuditFault::OutOfMemory) => End::Failed(Fault::OutOfMemory),
        }
    }

    /// That of a server.
    pub fn of_server<T: Drop>(ended: Result<T, Fault>) -> End
        ensures whole { OnOk ended (result ≡ End.Done) }
        ensures fault { IfErr ended (λ f. result ≡ End.Failed f) }
        ensures known { (status_of result ≡ 0) ⊎ (status_of result ≡ 3) }
    {
        match ended {
            Ok(served) => {
                drop(served);
                End::Done
            }
            Err(fault) => End::Failed(fault),
        }
    }

    /// Its exit status.
    fn status(self) -> u8
        ensures { result ≡ status_of self }
    {
        match self {
            End::Done => DONE,
            End::BadLine(_) | End::NotWhole => BAD_INPUT,
            End::AnsweredNo | End::Failed(_) => FAILED,
        }
    }

    /// Tells it, if there is anything to be told and standard error takes it, and gives the exit status.
    pub fn tell(self, rt: &impl Eprint) -> u8
        ensures status { result ≡ status_of self }
        ensures known { (result ≡ 0) ⊎ ((result ≡ 2) ⊎ (result ≡ 3)) }
    {
        let _ = match self {
            End::Done | End::AnsweredNo => Ok(()),
            End::BadLine(line) => eprintln!(rt; "line {line}: bad line"),
            End::NotWhole => eprintln!(rt; "the journal isn't whole"),
            End::Failed(fault) => eprintln!(rt; "fault {}", fault.number()),
        };
        self.status()
    }
}
