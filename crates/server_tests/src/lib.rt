//! The public calls of what stands around the server: links, node, clients, replay and the commands.
#![tactic(auto)]

#[cfg(test)]
mod clients;
#[cfg(test)]
mod commands;
#[cfg(test)]
mod node;
#[cfg(test)]
mod outside;
#[cfg(test)]
mod replay_lines;
#[cfg(test)]
mod replays;
#[cfg(test)]
mod steps;
#[cfg(test)]
mod stories;
