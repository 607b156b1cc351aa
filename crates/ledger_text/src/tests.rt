// Lines as shops write them, and the lines that they are answered with.
use super::*;

mod asked;
mod refusals;
mod texts;
