//! What the solving verbs print: the paths, points, intervals and chains of a linear program as lines of the listing. Definitions
//! alone.
#![tactic(auto)]
