// The intervals of a parametric run, and its end.
ghost use Rattle.std.specs.Prelude.{All, map};
ghost use Rattle.fitting_answers.specs.Fitting.{IntervalsFit, EndFits};
ghost use Rattle.report_text.specs.Parametric.{interval_view, end_view};
ghost use Rattle.report_sizes.specs.Sizes.{PartFits};

use crate::numbers::{recall_size, recall_sizes};
use frac128::Frac;
use listing_tables::Sheet;
use lp_model::{ParaEnd, ParaPart, ParaRun};

// The numbers of an interval fit.
fn recall_part(part: &ParaPart)
    ensures { PartFits part.now }
{
    recall_size(part.to);
    recall_sizes(part.value.values());
    recall_sizes(part.value_rate.values());
    recall_sizes(part.price.values());
    recall_sizes(part.price_rate.values());
}

// The numbers of each interval fit.
fn recall_parts(parts: &[ParaPart])
    ensures { All PartFits parts.now }
{
    for part in parts {
        recall_part(part);
    }
}

// The numbers of an end fit.
fn recall_end(sheet: Sheet<'_>, to: Frac, end: &ParaEnd)
    ensures { EndFits (end_view sheet.entry to end.now) }
{
    match end {
        ParaEnd::AtMax => recall_size(to),
        ParaEnd::Unbounded {
            past,
            point,
            direction,
        } => {
            recall_size(*past);
            recall_sizes(point.values());
            recall_sizes(direction.values());
        }
        ParaEnd::Infeasible { past, ray } => {
            recall_size(*past);
            recall_sizes(ray.values());
        }
    }
}

/// The numbers of the intervals and of the end fit.
pub fn recall_chain(sheet: Sheet<'_>, to: Frac, run: &ParaRun)
    ensures intervals { IntervalsFit (map (interval_view sheet.entry) run.now.parts) }
    ensures end { EndFits (end_view sheet.entry to run.now.end) }
{
    recall_parts(run.parts.items());
    recall_end(sheet, to, &run.end);
}
