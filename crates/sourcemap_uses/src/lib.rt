//! Common tasks with source maps, one short function each; knows nothing of the facades and of
//! `sourcemap_trace` but their public contracts and laws.
#![tactic(auto)]

pub mod adjusting;
pub mod building;
pub mod caching;
pub mod composing;
pub mod data_urls;
pub mod error_advice;
pub mod exporting;
pub mod finding;
pub mod flattening;
pub mod functions;
pub mod linking;
pub mod lookups;
pub mod merging;
pub mod naming;
pub mod publishing;
pub mod quick;
pub mod records;
pub mod regular;
pub mod saving;
pub mod shrinking;
pub mod splitting;
pub mod tracing;
pub mod values;
