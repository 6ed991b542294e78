//! Tests of environments, requests, tables, menus, registries, the runs of a request, files, registry files and HTTP,
//! for what no contract says and no command shows: sizes and places, names that no rule can have, where filling stops,
//! what an error gives back, how values are printed, what a watch observes, the keys of tables, the calls of the
//! system's files, and peers that send and receive a few bytes at a time or fail.
#![tactic(auto)]

#[cfg(test)]
mod codes;
#[cfg(test)]
mod environments;
#[cfg(test)]
mod exchanges;
#[cfg(test)]
mod menus;
#[cfg(test)]
mod registries;
#[cfg(test)]
mod registry_files;
#[cfg(test)]
mod requests;
#[cfg(test)]
mod resolver;
#[cfg(test)]
mod runs_together;
#[cfg(test)]
mod service;
#[cfg(test)]
mod shared;
#[cfg(test)]
mod streams;
#[cfg(test)]
mod system_files;
#[cfg(test)]
mod tables;
