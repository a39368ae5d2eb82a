// The labels of a program, each with its position.
ghost use Rattle.std.specs.Prelude.{◌≡◌, List, ℕ, bytes_eq, OnOk, Some, None, if◌then◌else◌, IfErr};
ghost use Rattle.std.specs.Map.{lookup};
ghost use Rattle.card_reader.specs.declared.stop.CardStop.TheVariants.{NoMemory};

use card_reader::CardStop;
use control_definitions::ControlFault;
use name_table::Name;
use std::alloc::Global;
use std::collections::HashMap;
use std::marker::Model;

/// Labels with their positions. A look-up takes the same time however many there are.
#[derive(Drop)]
pub struct Labels {
    positions: HashMap<Name, u32>,
}

impl Model for Labels {
    ghost use Rattle.std.specs.Prelude.{List, ℕ};

    ghost Value = { List (List ℕ × ℕ) };

    ghost view = { λ l. l.positions.entries };
}

impl Labels {
    /// No labels yet.
    pub fn new(alloc: Global) -> Labels
        ensures { (label : List ℕ) → lookup (bytes_eq label) result ≡ None }
    {
        Labels {
            positions: HashMap::new(alloc),
        }
    }

    /// The position of a label.
    pub fn position(&self, label: &Name) -> Option<u32>
        ensures { result ≡ lookup (bytes_eq label.now) self.now }
    {
        self.positions.get(label).copied()
    }

    /// Gives a label its position.
    pub fn add(&mut self, label: Name, position: u32) -> Result<(), CardStop<ControlFault>>
        ensures ok { OnOk result ((other : List ℕ) → lookup (bytes_eq other) self.new ≡
            (if bytes_eq label other then Some position else lookup (bytes_eq other) self.old)) }
        ensures err { IfErr result (λ stop. stop ≡ NoMemory) }
    {
        self.positions.insert(label, position)?;
        Ok(())
    }
}
