//! Tests of numbers, dates and identifiers in texts as sources send them, with examples of the standards, and of whole
//! queries and requests.
#![tactic(auto)]

#[cfg(test)]
mod counted;
#[cfg(test)]
mod dates;
#[cfg(test)]
mod dublin_core;
#[cfg(test)]
mod encodings;
#[cfg(test)]
mod enumerations;
#[cfg(test)]
mod fields;
#[cfg(test)]
mod identifiers;
#[cfg(test)]
mod isbns;
#[cfg(test)]
mod issns;
#[cfg(test)]
mod latex;
#[cfg(test)]
mod markup;
#[cfg(test)]
mod mentions;
#[cfg(test)]
mod pages;
#[cfg(test)]
mod queries;
#[cfg(test)]
mod references;
#[cfg(test)]
mod request_citations;
#[cfg(test)]
mod request_pages;
#[cfg(test)]
mod request_texts;
#[cfg(test)]
mod request_volumes;
#[cfg(test)]
mod request_writing;
#[cfg(test)]
mod requests;
#[cfg(test)]
mod retractions;
#[cfg(test)]
mod shared;
#[cfg(test)]
mod titles;
#[cfg(test)]
mod utf8;
#[cfg(test)]
mod works;
#[cfg(test)]
mod written;
