// The double-extended and binary64 codes of numbers, read and written. What is public stands in
// `double_extended`, `binary64` and `coded`.
#![tactic(auto)]

pub mod binary64;
mod code;
pub mod coded;
mod decode;
pub mod double_extended;
mod layout;
mod pack;
mod parts;
