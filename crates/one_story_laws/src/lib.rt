//! Listings of one job that are attested tell one story, and it is that of the run. The function here does nothing. It promises the laws, so
//! that the check proves them.
#![tactic(auto)]

ghost use Rattle.one_story_laws.specs.Laws.{OneStoryLaws};

use soundness_laws::soundness_laws;
use walk_laws::attested_law;

/// No attested listing of a job contradicts another, nor the run of the job.
pub fn one_story_laws()
    ensures { OneStoryLaws }
{
    attested_law();
    soundness_laws();
}
