// What a verdict claims, as the listing has it.
ghost use Rattle.std.specs.Prelude.{◌≡◌, ◌++◌, codes};
ghost use Rattle.std.specs.Option.{option_or};
ghost use Rattle.listing_definitions.specs.Report.{Check};
ghost use Rattle.listing_definitions.specs.Text.{solver_text};
ghost use Rattle.listing_tables.specs.Sheets.{IsSheet};
ghost use Rattle.walk_definitions.specs.Checkers.{says_checked};
ghost use Rattle.walk_definitions.specs.Words.{left_after};
ghost use Rattle.walk_definitions.specs.Reading.{optimal_in, crossed_in, infeasible_in, unbounded_in, claim_in, verdict_in};
ghost use Rattle.listing_words.specs.Read.{taken, sheet_view};
ghost use Rattle.listing_claims.specs.Passing.{Judges};
ghost use Rattle.listing_answers.specs.Words.{Found, IsRayHeadRead};
ghost use Rattle.listing_answers.specs.Readers.{IsRead};
ghost use Rattle.listing_answers.specs.Claims.{IsPair, IsStated, pair_in, optimum_in, shown_in, word_holds, word_test};
ghost use Rattle.listing_answers.specs.Taken.{IsReadBy};

use crate::reader::{Read, Reader};
use crate::unread::stop_unread;
use crate::words::{check_after, count_after};
use listing_claims::{By, Checks, Claim, Pair, Stop};
use listing_definitions::Solver;
use listing_readers::{MAX_COUNT, Place, Shape, numbers_at, ray, table};
use listing_tables::{Sheet, solver_word};
use listing_words::Cursor;
use std::alloc::Global;

/// A claim, and whether the listing says that it was checked.
#[derive(Drop)]
pub struct Stated<'a> {
    pub claim: Claim<'a>,
    pub is_checked: bool,
}

// That limits are crossed.
fn crossed<'a>(cursor: &mut Cursor<'a>, sheet: Sheet<'_>) -> Option<Stated<'a>>
    ensures { Found (IsStated (sheet_view sheet.entry))
        (crossed_in (sheet_view sheet.entry) cursor.old) cursor.new result }
{
    let size = sheet.lp.number_of_variables();
    let k = count_after(cursor, b"INFEASIBLE STEPS 0 CROSSED ", size)?;
    let is_checked = check_after(cursor, b" ")?;
    if k == 0 {
        return None;
    }
    Some(Stated {
        claim: Claim::Crossed(k),
        is_checked,
    })
}

// The word of the check of a ray.
fn ray_head(cursor: &mut Cursor<'_>) -> Option<bool>
    ensures { IsRayHeadRead cursor.old cursor.new result }
{
    count_after(cursor, b"INFEASIBLE STEPS ", MAX_COUNT)?;
    check_after(cursor, b" RAY ")
}

// Takes the name of a solving verb and a blank.
#[tactic(auto, using(walk_definitions::proofs::Texts::left_after_both))]
fn take_solver(cursor: &mut Cursor<'_>, solver: Solver) -> bool
    ensures { left_after (solver_text solver ++ codes " ") cursor.old ≡ taken result cursor.new }
{
    cursor.take(solver_word(solver)) && cursor.take(b" ")
}

impl Reader<'_> {
    // ---- each kind of claim, as it stands here

    /// A point and a direction, from the lines of a table.
    pub fn read_pair<'a, T: Checks>(&self, cursor: &mut Cursor<'a>) -> Read<Pair<'a>>
        requires { IsSheet self.now.sheet }
        ensures { IsRead IsPair pair_in T.checker self.now cursor.old cursor.new result }
    {
        let Reader { alloc, by, sheet } = *self;
        let count = sheet.lp.number_of_variables();
        let Some(numbers) = table::<T>(alloc, cursor, by, sheet, Shape::Pair, 0, count)? else {
            return Ok(None);
        };
        let point = numbers_at(alloc, &numbers, Place::First)?;
        let direction = numbers_at(alloc, &numbers, Place::Second)?;
        Ok(Some(Pair { point, direction }))
    }

    // That there is a best point.
    fn optimal<'a, T: Checks>(&self, cursor: &mut Cursor<'a>) -> Read<Stated<'a>>
        ensures { IsRead IsStated optimal_in T.checker self.now cursor.old cursor.new result }
    {
        let Some(head) = self.read_head::<T>(cursor, b"OPTIMAL STEPS ")? else {
            return Ok(None);
        };
        Ok(Some(Stated {
            claim: Claim::Optimal(head.objective),
            is_checked: head.is_checked,
        }))
    }

    // That a ray shows that no point is feasible.
    fn infeasible<'a, T: Checks>(&self, cursor: &mut Cursor<'a>) -> Read<Stated<'a>>
        requires { IsSheet self.now.sheet }
        ensures { IsRead IsStated infeasible_in T.checker self.now cursor.old cursor.new result }
    {
        let Some(is_checked) = ray_head(cursor) else {
            return Ok(None);
        };
        let Some(ray) = ray::<T>(self.alloc, cursor, self.by, self.sheet)? else {
            return Ok(None);
        };
        Ok(Some(Stated {
            claim: Claim::Infeasible(ray),
            is_checked,
        }))
    }

    // That there is no best point.
    fn unbounded<'a, T: Checks>(&self, cursor: &mut Cursor<'a>) -> Read<Stated<'a>>
        requires { IsSheet self.now.sheet }
        ensures { IsRead IsStated unbounded_in T.checker self.now cursor.old cursor.new result }
    {
        let Some(head) = self.read_head::<T>(cursor, b"UNBOUNDED STEPS ")? else {
            return Ok(None);
        };
        let Some(pair) = self.read_pair::<T>(cursor)? else {
            return Ok(None);
        };
        Ok(Some(Stated {
            claim: Claim::Unbounded(head.objective, pair),
            is_checked: head.is_checked,
        }))
    }

    // ---- one claim or another: each is looked for at the same place

    // That there is a best point, if the verb may find one.
    fn optimum<'a, T: Checks>(&self, cursor: &mut Cursor<'a>, solver: Solver) -> Read<Stated<'a>>
        ensures { IsRead IsStated (λ of sheet. optimum_in of sheet solver) T.checker
            self.now cursor.old cursor.new result }
    {
        match solver {
            Solver::Primal | Solver::Dual => self.optimal::<T>(cursor),
            Solver::Paraobj | Solver::Pararhs => Ok(None),
        }
    }

    // That a ray shows that no point is feasible, or that there is no best point.
    fn infeasible_or_unbounded<'a, T: Checks>(&self, cursor: &mut Cursor<'a>) -> Read<Stated<'a>>
        requires { IsSheet self.now.sheet }
        ensures { IsRead IsStated (λ of sheet at. option_or (infeasible_in of sheet at)
            (unbounded_in of sheet at)) T.checker self.now cursor.old cursor.new result }
    {
        let start = cursor.again();
        if let Some(stated) = self.infeasible::<T>(cursor)? {
            return Ok(Some(stated));
        }
        *cursor = start;
        self.unbounded::<T>(cursor)
    }

    // What shows that no point is feasible, or that there is no best point; DUAL doesn't find the second.
    fn shown<'a, T: Checks>(&self, cursor: &mut Cursor<'a>, solver: Solver) -> Read<Stated<'a>>
        requires { IsSheet self.now.sheet }
        ensures { IsRead IsStated (λ of sheet. shown_in of sheet solver) T.checker
            self.now cursor.old cursor.new result }
    {
        match solver {
            Solver::Dual => self.infeasible::<T>(cursor),
            Solver::Primal | Solver::Paraobj | Solver::Pararhs => {
                self.infeasible_or_unbounded::<T>(cursor)
            }
        }
    }

    // A claim of a solving verb.
    fn read_claim<'a, T: Checks>(&self, cursor: &mut Cursor<'a>, solver: Solver) -> Read<Stated<'a>>
        requires { IsSheet self.now.sheet }
        ensures { IsRead IsStated (λ of sheet. claim_in of sheet solver) T.checker
            self.now cursor.old cursor.new result }
    {
        let start = cursor.again();
        if let Some(stated) = self.optimum::<T>(cursor, solver)? {
            return Ok(Some(stated));
        }
        *cursor = start.again();
        if let Some(stated) = crossed(cursor, self.sheet) {
            return Ok(Some(stated));
        }
        *cursor = start;
        self.shown::<T>(cursor, solver)
    }

    // The verdict of a solving verb.
    fn read_verdict<'a, T: Checks>(
        &self,
        cursor: &mut Cursor<'a>,
        solver: Solver,
    ) -> Read<Stated<'a>>
        requires { IsSheet self.now.sheet }
        ensures { IsRead IsStated (λ of sheet. verdict_in of sheet solver) T.checker
            self.now cursor.old cursor.new result }
    {
        if !take_solver(cursor, solver) {
            return Ok(None);
        }
        self.read_claim::<T>(cursor, solver)
    }
}

/// The verdict of a solving verb; it is left unchecked where only a number that is too long keeps it from being read.
pub fn verdict<'a, T: Checks>(
    alloc: Global,
    cursor: &mut Cursor<'a>,
    sheet: Sheet<'_>,
    solver: Solver,
) -> Result<Stated<'a>, Stop>
    requires { IsSheet sheet }
    ensures { IsReadBy (IsStated (sheet_view sheet.entry)) T.checker
        (λ of. verdict_in of (sheet_view sheet.entry) solver) cursor.old cursor.new result }
{
    let mut start = cursor.again();
    let by = By::Value;
    let reader = Reader { alloc, by, sheet };
    if let Some(stated) = reader.read_verdict::<T>(cursor, solver)? {
        return Ok(stated);
    }
    if !T::has_limit() {
        return Err(Stop::Wrong);
    }
    let by = By::Form;
    let reader = Reader { alloc, by, sheet };
    let form = reader.read_verdict::<T>(&mut start, solver)?;
    Err(stop_unread(form.is_some()))
}

// Whether a claim may be printed with the word of its check.
fn may_stand<T: Checks>(stated: &Stated<'_>) -> bool
    ensures { (check : Check) → says_checked check ≡ stated.now.is_checked →
        word_holds T.checker stated.now.claim check ≡ result }
{
    match &stated.claim {
        Claim::Optimal(_) => true,
        Claim::Crossed(_) | Claim::Infeasible(_) | Claim::Unbounded(_, _) => {
            T::takes(stated.is_checked)
        }
    }
}

/// Goes on where a claim may be printed with the word of its check. An optimal one is tested where SOLUTION shows it.
pub fn take_word<T: Checks>(stated: &Stated<'_>) -> Result<(), Stop>
    ensures { (check : Check) → says_checked check ≡ stated.now.is_checked →
        Judges (word_test T.checker stated.now.claim check) result }
{
    if may_stand::<T>(stated) {
        Ok(())
    } else {
        Err(Stop::Wrong)
    }
}
