//! Tests of junk headers, data URLs, records, references and the detection of source maps. The
//! tests call the public functions of `sourcemap_json`, and `read_record` of `sourcemap_records`.
#![tactic(auto)]

#[cfg(test)]
mod data_urls;
#[cfg(test)]
mod detection;
#[cfg(test)]
mod headers;
#[cfg(test)]
mod records;
#[cfg(test)]
mod references;
#[cfg(test)]
mod unknown_keys;
