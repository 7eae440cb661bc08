// The number of a workload.
ghost use Rattle.std.specs.Prelude.{◌≡◌, ◌≤◌};

// The greatest number of a workload.
const MAX_WORKLOAD: u32 = 4_000;

/// The number of a workload, from 1 to 4,000.
#[derive(Clone, Copy)]
pub struct WorkloadNumber {
    pub(crate) number: u32,
    ghost within: { (1 ≤ number) × (number ≤ 4000) },
}

impl WorkloadNumber {
    ghost use Rattle.std.specs.Prelude.{option_map};
    ghost use Rattle.ontology_jobs.specs.Words.{plain_number, workload_size};

    /// None where there is no workload of this number.
    pub(crate) fn new(number: u32) -> Option<WorkloadNumber>
        ensures { option_map plain_number result ≡ workload_size number }
    {
        if number == 0 || number > MAX_WORKLOAD {
            None
        } else {
            Some(WorkloadNumber { number })
        }
    }

    /// The number itself.
    pub fn get(self) -> u32
        ensures value { result ≡ self.number }
        ensures least { 1 ≤ result }
        ensures most { result ≤ 4000 }
    {
        self.number
    }
}
