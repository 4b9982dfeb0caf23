// What runs leave.
//
// Model: `specs/Keeping.antt` names what a state counts beside its runs: the size, the accepted edits and
// the advisors that are left.
// Promise: laws alone. Steps, runs, `finish` and every command but `edit` and `advisor` leave the three;
// `advisor` changes one of them alone, and `edit` leaves that one.
#![tactic(auto)]

mod laws;

pub use laws::counts_stay;
