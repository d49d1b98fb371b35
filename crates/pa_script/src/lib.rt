//! Scripts: traces with one op more, which gives an object another size, and their text.
#![tactic(auto)]

mod line;
mod reader;
mod reading;
mod script;

pub use line::NAMED;
pub use reader::{MOST_SCRIPT_LINES, ScriptReader};
pub use reading::read_script;
pub use script::{Script, ScriptLine, ScriptLines};
