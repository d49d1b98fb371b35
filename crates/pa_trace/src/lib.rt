//! Traces: what each thread does, line by line, and their one text.
#![tactic(auto)]

mod fault;
mod field;
mod generator;
mod laws;
mod line;
mod line_reader;
mod op;
mod printing;
mod reading;
mod script;
mod writing;

pub use fault::TraceFault;
pub use field::{LineFault, below, three_numbers, within};
pub use generator::generate;
pub use laws::{
    early_fault, first_draws, first_version_text, generated_lines_fit, one_answer, one_text,
    short_text,
};
pub use line::{
    Head, LAST_VERSION, MOST_PARTITIONS, MOST_SUPER_PAGES, MOST_SUPER_PAGES_2, MOST_THREADS,
    head_of, line_in,
};
pub use line_reader::{LineReader, MOST_BYTES, MOST_LINES, cut_line, fault_at};
pub use op::{CELLS, REGISTERS};
pub use reading::{read_trace, read_trace_to};
pub use script::{Line, Lines, Op, Rules, Trace};
pub use writing::{push_head, push_line, write_trace};
