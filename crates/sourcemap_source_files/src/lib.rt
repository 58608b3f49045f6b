//! Loads the contents of sources from files; knows nothing of the map that the sources belong to.
#![tactic(auto)]

pub mod loading;
