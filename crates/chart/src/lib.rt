// The sequence's table for the wall (requests K4 and K7): as CSV, and as a page to print. Both are written from what the table tells
// (`table::Asked::next`), which is what the controller runs.
#![tactic(auto)]

pub mod csv;
mod differences;
mod headings;
pub mod page;
mod parts;
