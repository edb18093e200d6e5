//! What a server and a client are set up with: the schema file, the exec file, the files for the tables and the client's script, judged
//! and read.
#![tactic(auto)]

pub mod client_script;
pub mod client_setup;
pub mod exec_file;
pub mod own_lines;
pub mod report_line;
pub mod report_script;
pub mod report_setup;
pub mod schema_file;
pub mod setup;
