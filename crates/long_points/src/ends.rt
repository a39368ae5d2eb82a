// The ends of an interval of a parametric run.
ghost use Rattle.long_programs.specs.Programs.{IsChangeIn, IsChangeIn-prop};
ghost use Rattle.long_points.specs.Places.{HasPlaces};

use long_programs::{ProgramAt, Spread};

/// A point and prices at an end of an interval.
#[derive(Drop)]
pub struct End {
    pub point: Spread,
    pub prices: Spread,
}

/// The linear programs of a run, and both ends of an interval.
#[derive(Clone, Copy)]
pub struct Ends<'a> {
    pub program: ProgramAt<'a>,
    pub start: &'a End,
    pub end: &'a End,
    pub ghost change: { IsChangeIn program.lp.now program.change } by { IsChangeIn-prop program.lp.now program.change },
    pub ghost start_places: { HasPlaces program.lp.now start.now },
    pub ghost end_places: { HasPlaces program.lp.now end.now },
}
