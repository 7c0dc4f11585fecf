// Text by value: bytes in ASCII, numerals and figures. What is public stands in `text`, `numerals` and
// `figure`.
#![tactic(auto)]

pub mod figure;
pub mod numerals;
pub mod text;
