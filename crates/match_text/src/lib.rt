//! The text of the maps that carry the groups of a table's rows onto a found group.
//!
//! One line with Q of the found cell, then one line for each row that has a map: its number from 1, its name, the nine
//! entries of the map's Q and the three coordinates of its origin; or `none`. `specs/MatchText.antt` says the text in full.
#![tactic(auto)]

mod matches;

pub use matches::{has_match, match_report, push_map};
