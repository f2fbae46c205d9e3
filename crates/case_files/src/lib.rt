// What the programs that run cases share. Cases are lines of words, which make a file byte by byte and a second file whose record is looked up in. What is
// then asked is up to each program; of an answer its refusal or some of its numbers are printed.
#![tactic(auto)]

mod files;
mod lines;
mod show;
mod steps;

pub use lines::{first_word, index, number, split_line, text};
pub use show::{Field, print_answer, print_name, print_number};
pub use steps::{Now, is_step, step};
