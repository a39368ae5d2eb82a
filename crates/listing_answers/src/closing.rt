// How a parametric run closes.
ghost use Rattle.std.specs.Prelude.{◌≡◌, IfOk};
ghost use Rattle.listing_tables.specs.Sheets.{IsSheet};
ghost use Rattle.question_definitions.specs.Answers.{parametric_solver};
ghost use Rattle.parametric_request.specs.Asking.{changing_of};
ghost use Rattle.run_definitions.specs.Verbs.{last_value};
ghost use Rattle.walk_definitions.specs.Tests.{close_test};
ghost use Rattle.walk_definitions.specs.Reading.{close_in, tested_by};
ghost use Rattle.listing_words.specs.Read.{sheet_view};
ghost use Rattle.listing_claims.specs.Asked.{IsAskedOf};
ghost use Rattle.listing_claims.specs.Numbers.{number_in};
ghost use Rattle.listing_answers.specs.Readers.{IsRead};
ghost use Rattle.listing_answers.specs.Closings.{IsValueRead, Closes, unbounded_in, infeasible_in, past_in, close_after_in, value_of};
ghost use Rattle.listing_answers.specs.Taken.{Taken, IsReadBy};

use crate::openings::solver_of;
use crate::reader::{Read, Reader};
use crate::unread::stop_unread;
use listing_claims::{AskedRun, By, Checks, Closing, Stop};
use listing_definitions::Solver;
use listing_readers::ray;
use listing_tables::{Sheet, solver_word};
use listing_words::{Cursor, Number};
use std::alloc::Global;

impl Reader<'_> {
    // A value after a text, and the end of the line.
    fn value_line<'a, T: Checks>(&self, cursor: &mut Cursor<'a>, text: &[u8]) -> Read<Number<'a>>
        ensures { IfOk result
            (IsValueRead (number_in T.checker self.now.by) text.now cursor.old cursor.new) }
    {
        let Some(value) = self.number_after::<T>(cursor, text)? else {
            return Ok(None);
        };
        if !cursor.take(b"\n") {
            return Ok(None);
        }
        Ok(Some(value))
    }

    // That there is no best point past a value.
    fn unbounded_past<'a, T: Checks>(&self, cursor: &mut Cursor<'a>) -> Read<Closing<'a>>
        requires { IsSheet self.now.sheet }
        ensures { IsRead Closes unbounded_in T.checker self.now cursor.old cursor.new result }
    {
        let Some(value) = self.value_line::<T>(cursor, b" UNBOUNDED PAST ")? else {
            return Ok(None);
        };
        let Some(pair) = self.read_pair::<T>(cursor)? else {
            return Ok(None);
        };
        Ok(Some(Closing::Unbounded(value, pair)))
    }

    // That no point is feasible past a value.
    fn infeasible_past<'a, T: Checks>(&self, cursor: &mut Cursor<'a>) -> Read<Closing<'a>>
        requires { IsSheet self.now.sheet }
        ensures { IsRead Closes infeasible_in T.checker self.now cursor.old cursor.new result }
    {
        let Some(value) = self.value_line::<T>(cursor, b" INFEASIBLE PAST ")? else {
            return Ok(None);
        };
        let Some(ray) = ray::<T>(self.alloc, cursor, self.by, self.sheet)? else {
            return Ok(None);
        };
        Ok(Some(Closing::Infeasible(value, ray)))
    }

    // What ends a run of this verb before its last value.
    fn past<'a, T: Checks>(&self, cursor: &mut Cursor<'a>, solver: Solver) -> Read<Closing<'a>>
        requires { IsSheet self.now.sheet }
        ensures { IsRead Closes (λ of sheet. past_in of sheet solver) T.checker
            self.now cursor.old cursor.new result }
    {
        match solver {
            Solver::Paraobj => self.unbounded_past::<T>(cursor),
            Solver::Pararhs => self.infeasible_past::<T>(cursor),
            Solver::Primal | Solver::Dual => Ok(None),
        }
    }

    // How a run closes, after the name of its verb.
    fn ending<'a, T: Checks>(&self, cursor: &mut Cursor<'a>, solver: Solver) -> Read<Closing<'a>>
        requires { IsSheet self.now.sheet }
        ensures { IsRead Closes (λ of sheet. close_after_in of sheet solver) T.checker
            self.now cursor.old cursor.new result }
    {
        let start = cursor.again();
        if let Some(value) = self.value_line::<T>(cursor, b" ENDS AT ")? {
            return Ok(Some(Closing::At(value)));
        }
        *cursor = start;
        self.past::<T>(cursor, solver)
    }

    // How a run of this verb closes.
    fn run_close<'a, T: Checks>(&self, cursor: &mut Cursor<'a>, solver: Solver) -> Read<Closing<'a>>
        requires { IsSheet self.now.sheet }
        ensures { IsRead Closes (λ of sheet. close_in of sheet solver) T.checker
            self.now cursor.old cursor.new result }
    {
        if !cursor.take(solver_word(solver)) {
            return Ok(None);
        }
        self.ending::<T>(cursor, solver)
    }
}

// How a run of this verb closes; that is left unchecked where only a number that is too long keeps it from being read.
fn run_closing<'a, T: Checks>(
    alloc: Global,
    cursor: &mut Cursor<'a>,
    sheet: Sheet<'_>,
    solver: Solver,
) -> Result<Closing<'a>, Stop>
    requires { IsSheet sheet }
    ensures { IsReadBy (Closes (sheet_view sheet.entry)) T.checker
        (λ of. close_in of (sheet_view sheet.entry) solver) cursor.old cursor.new result }
{
    let mut start = cursor.again();
    let by = By::Value;
    let reader = Reader { alloc, by, sheet };
    if let Some(closing) = reader.run_close::<T>(cursor, solver)? {
        return Ok(closing);
    }
    if !T::has_limit() {
        return Err(Stop::Wrong);
    }
    let by = By::Form;
    let reader = Reader { alloc, by, sheet };
    let form = reader.run_close::<T>(&mut start, solver)?;
    Err(stop_unread(form.is_some()))
}

// The value at which a run ends.
fn value_of<'a>(closing: &Closing<'a>) -> Number<'a>
    ensures { result ≡ value_of closing.now }
{
    match closing {
        Closing::At(value) | Closing::Unbounded(value, _) | Closing::Infeasible(value, _) => {
            value.again()
        }
    }
}

/// Reads how a run closes whose last interval ends here, and tests it. Gives the value at which it ends.
pub fn read_close<'a, T: Checks>(
    alloc: Global,
    cursor: &mut Cursor<'a>,
    sheet: Sheet<'_>,
    request: &AskedRun<'_>,
    last: &Number<'_>,
) -> Result<Number<'a>, Stop>
    requires sheet { IsSheet sheet }
    requires asked { IsAskedOf sheet request.now }
    ensures { let changing = changing_of request.now.name request.now.change in
        Taken (λ end close. end ≡ last_value close)
        (tested_by T.checker
        (close_test T.checker (sheet_view sheet.entry) changing request.now.to last.now)
        (λ of. close_in of (sheet_view sheet.entry)
        (parametric_solver changing)) cursor.old) cursor.new result }
{
    let closing = run_closing::<T>(alloc, cursor, sheet, solver_of(request))?;
    let mut allowance = cursor.allowance();
    T::test_close(alloc, sheet, request, last, &closing, &mut allowance)?;
    cursor.set_allowance(allowance);
    Ok(value_of(&closing))
}
