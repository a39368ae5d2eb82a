//! What calls answer, as text.

ghost use Rattle.std.specs.Prelude.{◌≡◌, true, length};
ghost use Rattle.lp_definitions.specs.LinearProgram.{size};

use frac128::Frac;
use lp_model::{Evidence, Lp, Outcome, Status};
use std::alloc::{AllocError, Global};
use std::test::Fail;

/// A fraction as its numerator and its denominator.
pub type Parts = (i128, i128);

pub fn fraction(parts: Parts) -> Result<Frac, Fail> {
    let (numerator, denominator) = parts;
    if denominator < 1 || numerator == i128::MIN {
        return Err(Fail::from("no fraction"));
    }
    Ok(Frac::new(numerator, denominator))
}

pub fn wholes(alloc: Global, numbers: &[i128]) -> Result<Vec<Frac>, Fail> {
    let mut values = Vec::new(alloc);
    for number in numbers {
        values.push(fraction((*number, 1))?)?;
    }
    Ok(values)
}

/// Whether there is a value for each variable.
pub fn fits(lp: &Lp, values: &[Frac]) -> bool
    ensures { result ≡ true → length values.now ≡ size lp.now.matrix }
{
    values.len() == lp.number_of_variables() as usize
}

/// The values, with a blank before each.
pub fn values_text(alloc: Global, values: &[Frac]) -> Result<String, AllocError> {
    let mut text = String::new(alloc);
    for value in values {
        let word = format!(in alloc; " {value}")?;
        text.push_str(&word)?;
    }
    Ok(text)
}

fn word_of(status: Status) -> &'static str {
    match status {
        Status::Bs => " BS",
        Status::Ll => " LL",
        Status::Ul => " UL",
        Status::Fr => " FR",
    }
}

/// The statuses, with a blank before each.
pub fn statuses_text(alloc: Global, statuses: &[Status]) -> Result<String, AllocError> {
    let mut text = String::new(alloc);
    for status in statuses {
        text.push_str(word_of(*status))?;
    }
    Ok(text)
}

pub fn outcome_text(alloc: Global, outcome: &Outcome) -> Result<String, AllocError> {
    match outcome {
        Outcome::Optimal {
            steps,
            point,
            prices,
        } => {
            let point = values_text(alloc, point.values())?;
            let prices = values_text(alloc, prices.values())?;
            format!(in alloc; "OPTIMAL STEPS {steps} POINT{point} PRICES{prices}")
        }
        Outcome::Crossed { k } => format!(in alloc; "CROSSED {k}"),
        Outcome::Infeasible { steps, ray } => {
            let ray = values_text(alloc, ray.values())?;
            format!(in alloc; "INFEASIBLE STEPS {steps} RAY{ray}")
        }
        Outcome::Unbounded {
            steps,
            point,
            direction,
        } => {
            let point = values_text(alloc, point.values())?;
            let direction = values_text(alloc, direction.values())?;
            format!(in alloc; "UNBOUNDED STEPS {steps} POINT{point} DIRECTION{direction}")
        }
    }
}

pub fn evidence_text(alloc: Global, evidence: &Evidence) -> Result<String, AllocError> {
    let places = format!(in alloc;
        "FORMULA {} WAY {} P {} Q {} I {} J {} TERM {}",
        evidence.formula,
        evidence.way,
        evidence.p,
        evidence.q,
        evidence.i,
        evidence.j,
        evidence.term
    )?;
    format!(in alloc; "{places} THETA {}: {}", evidence.theta, evidence.refused)
}
