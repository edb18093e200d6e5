//! What the answers of a run are, over true steps. A plan that looks at answers, as those of reports and of key sets, rests on it.
#![tactic(auto)]

pub mod laws;
