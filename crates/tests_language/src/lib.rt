//! Tests of the language, catalogues, plans, scripts and reports, over the public calls of the crates below: tables of
//! cases with answers from outside the program.
#![tactic(auto)]

#[cfg(test)]
mod catalog;
#[cfg(test)]
mod definitions;
#[cfg(test)]
mod expecting;
#[cfg(test)]
mod file_selections;
#[cfg(test)]
mod items;
#[cfg(test)]
mod payloads;
#[cfg(test)]
mod plans;
#[cfg(test)]
mod queries;
#[cfg(test)]
mod reports;
#[cfg(test)]
mod scripts;
#[cfg(test)]
mod selection;
#[cfg(test)]
mod sources;
#[cfg(test)]
mod writing;
