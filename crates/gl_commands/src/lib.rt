//! The command line of `ccfg`: its commands and their options, what words ask for, what the program
//! tells of itself, and the texts of faults: a name and the values after it.
//!
//! Begin with `read_words` for what words ask for, and `put_receipt` or `put_journal` for the text
//! of a fault.
#![tactic(auto)]

mod commands;
mod digest_word;
mod journals;
mod load_words;
mod node_words;
mod receipts;
mod task;
mod values;
mod word_faults;
mod words;

pub use commands::{HELP, VERSION};
pub use journals::{put_journal, put_key_kinds};
pub use receipts::put_receipt;
pub use task::{Asked, LoadTask, NodeTask, Task, WordsFault};
pub use values::{
    put_bad_action, put_form, put_hex, put_named, put_nodes, put_number, put_numbers,
};
pub use word_faults::kind_name;
pub use words::read_words;
