// What the report program prints, as a text made of the bytes of its input. What is public stands in
// the module `report`.
#![tactic(auto)]

mod lines;
pub mod report;
