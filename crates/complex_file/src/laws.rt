ghost use Rattle.complex_file.specs.Names.{FirstFaultLaw, SpelledJobLaw, WrittenJobLaw};

/// What bytes spell is a job, whose blocks have no fault.
pub fn spelled_job()
    ensures { SpelledJobLaw }
{}

/// A job that is written as lines of the input is the job that they spell.
pub fn written_job()
    ensures { WrittenJobLaw }
{}

/// The fault of a text is the first of the table of faults that comes on its first line at fault.
pub fn first_fault()
    ensures { FirstFaultLaw }
{}
