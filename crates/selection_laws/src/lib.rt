//! What is proved of selections, the linear programs that choices of a problem's rows and sets make: that they are linear programs, that
//! an N row has no limits in any of them, and of combinations, the rows that are sums of multiples of rows before them, that their numbers
//! are the sums of their parts, and so are their activities. The functions here do nothing. Each promises laws, so that the check proves
//! them.
#![tactic(auto)]

ghost use Rattle.selection_laws.specs.Laws.{SelectsLinearPrograms, LeavesFreeRowsFree};
ghost use Rattle.selection_laws.specs.Sums.{AddsNumbers, AddsActivities};

pub fn selection_laws()
    ensures programs { SelectsLinearPrograms }
    ensures free_rows { LeavesFreeRowsFree }
{}

pub fn combination_laws()
    ensures numbers { AddsNumbers }
    ensures activities { AddsActivities }
{}
