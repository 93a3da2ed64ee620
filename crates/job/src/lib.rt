// Tables of jobs, and the loader that reads one from a job file.
#![tactic(auto)]

mod file;
mod loading;
mod naming;
mod record;
mod records;
mod row;
mod table;
mod walk;

pub use table::Table;
