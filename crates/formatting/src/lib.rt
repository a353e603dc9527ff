// The line of a work sheet that formats the card.
#![tactic(auto)]

pub mod format; // what such a line does
