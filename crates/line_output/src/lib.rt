// Answers written to a sink, a line each.
#![tactic(auto)]

mod output;

pub use output::{
    write_all, write_answer, write_fault, write_line, write_long, write_reply, write_text,
};
