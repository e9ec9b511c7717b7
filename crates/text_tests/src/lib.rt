//! The public calls over texts and files: numbers, words, configurations, schedules, lines of the management
//! interface, replies and frames.
#![tactic(auto)]

#[cfg(test)]
mod addresses;
#[cfg(test)]
mod client_files;
#[cfg(test)]
mod directives;
#[cfg(test)]
mod frames;
#[cfg(test)]
mod management;
#[cfg(test)]
mod plain_values;
#[cfg(test)]
mod push;
#[cfg(test)]
mod replies;
#[cfg(test)]
mod schedules;
#[cfg(test)]
mod settings;
#[cfg(test)]
mod words;
