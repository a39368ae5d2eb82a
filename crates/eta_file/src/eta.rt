//! The elementary matrices of the file.

use frac128::Frac;
use lp_model::Ratio;

/// The rate of the basic `i` at the variable that enters.
#[derive(Drop)]
pub struct EtaEntry {
    pub i: u32,
    pub rate: Ratio,
}

/// The pivot and the entries of an eta, each times one number. They are whole where that number is a multiple of their denominators.
#[derive(Drop)]
pub struct WholeEta {
    pub scale: Frac,
    pub pivot: Frac,
    pub entries: Vec<EtaEntry>,
}

/// An exchange of `p` for `q`, as the file keeps it: the rates that the basics before it have at q, where they are not 0, and that of
/// p once more, as the pivot; and all of these as whole numbers, where they fit.
#[derive(Drop)]
pub struct StoredEta {
    pub p: u32,
    pub q: u32,
    pub pivot: Frac,
    pub entries: Vec<EtaEntry>,
    pub whole: Option<WholeEta>,
}

/// An exchange of `p` for `q`, and the rates that the basics before it have at q, where they are not 0, in ascending order.
#[derive(Clone, Copy)]
pub struct Eta<'a> {
    pub p: u32,
    pub q: u32,
    pub entries: &'a [EtaEntry],
}

/// The pivot and the entries of an eta, each times one number.
#[derive(Clone, Copy)]
pub struct ScaledEta<'a> {
    pub scale: Frac,
    pub pivot: Frac,
    pub entries: &'a [EtaEntry],
}
