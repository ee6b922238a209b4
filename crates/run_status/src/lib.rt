//! How a run of the program ended: its status, and the exit status that tells it.
//!
//! `specs/ExitStatuses.antt` has the exit statuses, `specs/StatusKinds.antt` the kinds of statuses: whether a report is
//! written, cut, or none.
#![tactic(auto)]

mod status;

pub use report_basis::Kept;
pub use status::Status;
