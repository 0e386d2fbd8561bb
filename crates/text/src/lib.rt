// The text of a question, of its answer, and its one form; and what others write their lines by.
#![tactic(auto)]

pub mod answer;
pub mod cursor;
mod numerals;
mod print;
mod question;
mod reading;
pub mod respond;
pub mod rewrite;
pub mod writing;
