//! Tests of values, files and records, over the public calls of the crates below: tables of cases with answers from
//! outside the program.
#![tactic(auto)]

#[cfg(test)]
mod csv_files;
#[cfg(test)]
mod csv_rows;
#[cfg(test)]
mod expecting;
#[cfg(test)]
mod files;
#[cfg(test)]
mod hashes;
#[cfg(test)]
mod headers;
#[cfg(test)]
mod json_arrays;
#[cfg(test)]
mod json_lines;
#[cfg(test)]
mod json_payloads;
#[cfg(test)]
mod json_readers;
#[cfg(test)]
mod layout;
#[cfg(test)]
mod lines;
#[cfg(test)]
mod lists;
#[cfg(test)]
mod outside;
#[cfg(test)]
mod samples;
#[cfg(test)]
mod system;
#[cfg(test)]
mod texts;
mod told;
#[cfg(test)]
mod values;

pub use told::{
    agreed, field_at, field_or_refusal, fields_text, items_at, path_of, text_of, value_text,
    values_text,
};
