//! Junk headers, data URLs and debug ids of source maps; knows nothing of the JSON behind them.
#![tactic(auto)]

pub mod data_url;
pub mod debug_id;
pub mod header;
pub mod header_reader;
