// A list as a program hands it to a user, in two forms: as words, which every program of ours reads again, and as a
// term, which a person reads. No contract says what is written; a program's output is recorded.
#![tactic(auto)]

mod term;
mod words;

pub use term::write_term;
pub use words::write_words;
