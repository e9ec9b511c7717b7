//! The public calls of a control link and of one client's session.
#![tactic(auto)]

#[cfg(test)]
mod links;
#[cfg(test)]
mod lives;
#[cfg(test)]
mod receiving;
#[cfg(test)]
mod sending;
#[cfg(test)]
mod session_channels;
#[cfg(test)]
mod slots;
