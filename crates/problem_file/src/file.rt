// The file of problems.
ghost use Rattle.std.specs.Prelude.{◌≡◌, [], None, Some, OnOk, OnErr, IfSome, IsSome, if◌then◌else◌};
ghost use Rattle.std.specs.Option.{option_copied};
ghost use Rattle.problem_definitions.specs.Names.{Name as Text, same};
ghost use Rattle.problem_file.specs.Filed.{filed_under};

use crate::problem::Problem;
use indexmap::IndexMap;
use job_devices::NoMemory;
use name_table::Name;
use std::alloc::Global;
use std::marker::Model;

/// The problems on file, each under its name, with the name put last.
#[derive(Drop)]
pub struct ProblemFile {
    problems: IndexMap<Name, Problem>,
    last: Option<Name>,
}

impl Model for ProblemFile {
    ghost use Rattle.std.specs.Prelude.{IfSome, IsSome};
    ghost use Rattle.std.specs.Map.{lookup};
    ghost use Rattle.problem_definitions.specs.Names.{same};
    ghost use Rattle.problem_file.specs.Filed.{Filed};

    ghost Value = { Filed };

    ghost view = { λ file. record { problems = file.problems.entries; last = file.last } };

    ghost invariant = { λ file. IfSome file.last
        (λ name. IsSome (lookup (same name) file.problems.entries)) };
}

impl ProblemFile {
    /// An empty file, which grows in this memory.
    pub fn new(alloc: Global) -> ProblemFile
        ensures { result ≡ record { problems = []; last = None } }
    {
        ProblemFile {
            problems: IndexMap::new(alloc),
            last: None,
        }
    }

    /// Files the problem under its name, in place of the one that was there. Where there is no memory the problem is dropped, and
    /// the file stays as it was.
    pub fn put(&mut self, problem: Problem) -> Result<(), NoMemory>
        ensures filed { OnOk result ((name : Text) → filed_under name self.new ≡
            (if same problem.name name then Some problem else filed_under name self.old)) }
        ensures last { OnOk result (self.new.last ≡ Some problem.name) }
        ensures refused { OnErr result (self.new ≡ self.old) }
    {
        let name = problem.name();
        match self.problems.insert(name, problem) {
            Ok(_) => {
                self.last = Some(name);
                Ok(())
            }
            Err(_) => Err(NoMemory),
        }
    }

    /// The problem of this name, if there is one.
    pub fn get(&self, name: &Name) -> Option<&Problem>
        ensures { option_copied result ≡ filed_under name.now self.now }
    {
        self.problems.get(name)
    }

    /// The name put last. Its problem is on file.
    pub fn last(&self) -> Option<Name>
        ensures last { result ≡ self.now.last }
        ensures on_file { IfSome result (λ name. IsSome (filed_under name self.now)) }
    {
        self.last
    }
}
