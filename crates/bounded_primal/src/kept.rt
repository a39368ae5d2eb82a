//! Which values of the basis's point a path keeps.

ghost use Rattle.std.specs.Prelude.{◌≡◌};
ghost use Rattle.bounded_primal.specs.KeptPoints.{all_kept, all_needed};

/// Which values of the basis's point are kept from step to step. No step needs the value of a variable without limits, so where
/// such a value can't be computed, a path may go on without it.
#[derive(Clone, Copy)]
pub enum Kept {
    /// Those of all variables, and each is needed.
    All,
    /// Those of all variables so far; from where one without limits can't be computed, those of the others.
    AllSoFar,
    /// Those of the variables with a limit.
    Limited,
}

impl Kept {
    /// Whether the values of all variables are kept.
    pub fn has_all(self) -> bool
        ensures { result ≡ all_kept self }
    {
        match self {
            Kept::All | Kept::AllSoFar => true,
            Kept::Limited => false,
        }
    }

    /// Whether the value of each variable is needed.
    pub fn needs_all(self) -> bool
        ensures { result ≡ all_needed self }
    {
        match self {
            Kept::All => true,
            Kept::AllSoFar | Kept::Limited => false,
        }
    }
}
