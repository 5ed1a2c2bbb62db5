//! The commands of the program `argon2`: their arguments, what they do, faults and exit statuses.
#![tactic(auto)]

mod answer;
mod command;
mod command_line;
mod fault;
mod password;
mod program;
mod runs;
mod usage;

pub use answer::Answer;
pub use command::Command;
pub use command_line::{CommandLine, OfProcess, arguments};
pub use fault::Fault;
pub use program::{run, start};
pub use runs::attempt;
pub use usage::{Kind, Name};
