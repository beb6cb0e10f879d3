// Order files: the bytes of a file to the bytes of its answers.
#![tactic(auto)]

mod fault;
mod file;
mod lines;
mod serve;
mod write;

pub use fault::AnswerFault;
pub use file::answer_file;
