// How the program ends.
ghost use Rattle.std.specs.Prelude.{◌≡◌};
ghost use Rattle.std.specs.Process.{exit_status};
ghost use Rattle.ontology_jobs.specs.Status.{Status as Ended};
ghost use Rattle.ontology_cli.specs.Exit.{exit_number};

use ontology_jobs::Status;
use std::process::ExitCode;

// The number with which the program ends where a run ends so.
fn exit_number(status: Status) -> u8
    ensures { result ≡ exit_number status }
{
    match status {
        Status::Done => 0,
        Status::Rejected => 1,
        Status::BadWords => 2,
        Status::BadText => 3,
        Status::Outside => 4,
        Status::Limit => 5,
        Status::ReadFault => 6,
        Status::WriteFault => 7,
        Status::Undecided => 8,
        Status::NoMemory => 9,
    }
}

/// The code with which the program ends where a run ends so. Its number tells the status: no other has it.
#[tactic(auto, using(crate::proofs::Numbers::tells))]
pub(crate) fn exit_code(status: Status) -> ExitCode
    ensures number { exit_status result ≡ exit_number status }
    ensures only { (other : Ended) → exit_number other ≡ exit_status result → other ≡ status }
{
    ExitCode::from(exit_number(status))
}
