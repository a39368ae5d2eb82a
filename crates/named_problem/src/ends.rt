// The ends of a column.
ghost use Rattle.std.specs.Prelude.{◌≡◌};
ghost use Rattle.problem_definitions.specs.Kinds.{touches_upper, touches_lower};
ghost use Rattle.named_problem.specs.NotedEnds.{touches_end};

use problem_definitions::BoundKind;

/// An end of a column's interval.
#[derive(Clone, Copy, Debug, PartialEq, Eq)]
pub enum ColumnEnd {
    Upper,
    Lower,
}

// Whether a bound of this type touches the upper end.
pub fn touches_top(kind: BoundKind) -> bool
    ensures { result ≡ touches_upper kind }
{
    match kind {
        BoundKind::Up | BoundKind::Fx | BoundKind::Fr | BoundKind::Pl => true,
        BoundKind::Lo | BoundKind::Mi => false,
    }
}

// Whether a bound of this type touches the lower end.
pub fn touches_bottom(kind: BoundKind) -> bool
    ensures { result ≡ touches_lower kind }
{
    match kind {
        BoundKind::Lo | BoundKind::Fx | BoundKind::Fr | BoundKind::Mi => true,
        BoundKind::Up | BoundKind::Pl => false,
    }
}

// Whether a bound of this type touches an end of its column.
pub fn touches(end: ColumnEnd, kind: BoundKind) -> bool
    ensures { result ≡ touches_end end kind }
{
    match end {
        ColumnEnd::Upper => touches_top(kind),
        ColumnEnd::Lower => touches_bottom(kind),
    }
}
