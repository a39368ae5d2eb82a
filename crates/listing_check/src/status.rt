// The exit status of a check.
ghost use Rattle.std.specs.Prelude.{◌≡◌};

/// How the check of a listing ended.
#[derive(Clone, Copy, Debug, PartialEq, Eq)]
pub enum CheckStatus {
    /// The listing is attested.
    Attested,
    /// There are words behind the program's name.
    Words,
    /// A read of the job failed.
    ReadFault,
    /// A write to the print failed.
    PrintFault,
    /// A read of the listing failed.
    ListingFault,
    /// Memory ran out.
    Memory,
    /// What is due at a line isn't right.
    Wrong,
    /// What stands at a line can't be attested.
    Open,
    /// An operation of the test of what is due at a line is refused.
    Unchecked,
    /// The listing is longer than 64,000,000 bytes.
    Long,
}

impl CheckStatus {
    ghost use Rattle.listing_check.specs.Statuses.{code_of};

    /// The exit code.
    pub fn code(self) -> u8
        ensures { result ≡ code_of self }
    {
        match self {
            CheckStatus::Attested => 0,
            CheckStatus::Words => 4,
            CheckStatus::ReadFault => 24,
            CheckStatus::PrintFault => 25,
            CheckStatus::ListingFault => 27,
            CheckStatus::Memory => 28,
            CheckStatus::Wrong => 40,
            CheckStatus::Open => 41,
            CheckStatus::Unchecked => 42,
            CheckStatus::Long => 43,
        }
    }
}
