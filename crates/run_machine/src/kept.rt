// What SETUP keeps.
ghost use Rattle.std.specs.Prelude.{Option};
ghost use Rattle.problem_definitions.specs.Names.{Name};
ghost use Rattle.problem_file.specs.Filed.{Filed};
ghost use Rattle.listing_definitions.specs.declared.Mark.{Mark};
ghost use Rattle.run_definitions.specs.State.{Present};

/// What is kept of the problem that SETUP chose, as the machine knows it: its statements keep it as it is, or clear it.
pub trait Kept: Drop {
    // the problem, the options and the bases that it shows, with these problems on file
    ghost shows: { Filed → Self → Present → Type 0 };
    // what holds of it
    ghost ready: { Filed → Self → Type 0 };
    // what holds of it while this mark stands, with these names in XOBJ and XRHS
    ghost solved: { Mark → Option Name → Option Name → Filed → Self → Type 0 };
}
