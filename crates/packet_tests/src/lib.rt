//! The public calls over packets: cryptography, wrapping, packet ids, messages, routes and addresses.
#![tactic(auto)]

#[cfg(test)]
mod aes;
#[cfg(test)]
mod channels;
#[cfg(test)]
mod data_packets;
#[cfg(test)]
mod gcm;
#[cfg(test)]
mod ghash;
#[cfg(test)]
mod hmac;
#[cfg(test)]
mod inner_packets;
#[cfg(test)]
mod key_messages;
#[cfg(test)]
mod opcodes;
#[cfg(test)]
mod pool;
#[cfg(test)]
mod routes;
#[cfg(test)]
mod verdicts;
#[cfg(test)]
mod windows;
#[cfg(test)]
mod wrapping;
