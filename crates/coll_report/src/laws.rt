//! What holds of every legal trace of a script, and of every closed engine. A call does nothing; its contract is the law.

ghost use Rattle.coll_report.specs.Rows.{RowsAreClosed};
ghost use Rattle.coll_report.specs.ScriptRows.{RowsAreTold};
ghost use Rattle.coll_report.specs.Scripted.{AttestedTells};
ghost use Rattle.coll_report.specs.Told.{TracesTell, TracesCount, StrangersAreSilent};

/// In a legal trace whose posts, initialisations and starts are a script's, each outcome has the value that the script
/// alone fixes, whatever order the ranks acted in.
pub fn traces_tell()
    ensures { TracesTell }
{}

/// In such a trace no start is completed twice, none that the script doesn't ask for, and where nothing is active at
/// its end each is completed once.
pub fn traces_count()
    ensures { TracesCount }
{}

/// Only the job's ranks have posts, initialisations and starts in a legal trace.
pub fn strangers_are_silent()
    ensures { StrangersAreSilent }
{}

/// Where each rank did what a script says, a closed engine handed out exactly the outcomes that the script asks for,
/// each with the value that the commands of all ranks fix, and each once.
pub fn attested_tells()
    ensures { AttestedTells }
{}

/// The traces of the test vectors are such traces, so what the laws ask for can be met.
pub fn rows_are_told()
    ensures { RowsAreTold }
{}

/// The traces of the test vectors are those of closed engines whose ranks did what scripts say, so what the law asks for
/// can be met.
pub fn rows_are_closed()
    ensures { RowsAreClosed }
{}
