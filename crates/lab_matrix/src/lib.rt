//! The ten cases, which anomalies each engine permits in them, and what each engine promises of every run.
//!
//! Functions that allocate return `NoMemory` if an allocation fails.
#![tactic(auto)]

mod cases;
mod cells;
mod columns;
mod columns_text;
mod engine_promise;
mod filling;
mod matrix_text;
mod name;
mod parts;
mod promised;

pub use cells::{Column, Matrix, Row};
pub use columns::{CaseReports, columns_at};
pub use columns_text::print_columns;
pub use engine_promise::Promise;
pub use filling::{MatrixFault, matrix};
pub use matrix_text::print_matrix;
pub use name::{CaseName, case, cases_print};
pub use promised::promise;
