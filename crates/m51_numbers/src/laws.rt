//! What number each constant is. Each law but `status_number` is the contract of a function that does nothing.
ghost use Rattle.std.specs.Prelude.{◌≡◌};
ghost use Rattle.m51_numbers.specs.Faults.{FaultsHaveNumbers};
ghost use Rattle.m51_numbers.specs.Limits.{LimitsHaveNumbers};
ghost use Rattle.m51_numbers.specs.Records.{RecordsHaveTypes};
ghost use Rattle.m51_numbers.specs.Statuses.{NotTextHasNumber, exit_number};

use m51_chain::Status;

/// The faults of a source have the numbers 1 to 19.
///
/// Source: own choice ("Numbers on one page").
pub fn faults_have_numbers()
    ensures { FaultsHaveNumbers }
{}

/// How large things may be.
///
/// Source: own choice ("Numbers on one page").
pub fn limits_have_numbers()
    ensures { LimitsHaveNumbers }
{}

/// The records of an object and of a library have these types.
///
/// Source: OMF-51.
#[tactic(auto, using(crate::proofs::Types::records_have_types))]
pub fn records_have_types()
    ensures { RecordsHaveTypes }
{}

/// The exit status of the command for the way in which it ends: what the program makes of it.
///
/// Source: own choice ("Numbers on one page").
pub fn status_number(status: Status) -> u8
    ensures { result ≡ exit_number status }
{
    status as u8
}

/// The exit status of the command if an argument is not UTF-8.
///
/// Source: own choice ("Numbers on one page").
pub fn not_text_has_a_number()
    ensures { NotTextHasNumber }
{}
