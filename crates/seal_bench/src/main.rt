//! Measures how many bytes a second are sealed, in packets of 1,400 bytes with 8 bytes of
//! additional data.
//!
//! With no word it prints the tag of one packet under each cipher. With the word `time` it prints
//! each cipher's bytes a second in the best of many short rounds.
#![tactic(auto)]

use gcm_seal::{Aead, Gcm128, Gcm256};
use std::rt::Clock;
use std::time::Instant;
use std::{env, io};

const PACKET_LEN: usize = 1400;

// The packets sealed in one round, which takes about half a millisecond.
const PACKETS: u32 = 50;

const ROUNDS: u32 = 200;

// The first bytes of a data packet: its kind, a peer id and a packet id.
const ADDITIONAL_DATA: [u8; 8] = [0x48, 0, 0, 1, 0, 0, 0, 7];

// A key whose bytes count up from 0.
fn counting<const N: usize>() -> [u8; N] {
    let mut key = [0u8; N];
    for i in 0..N {
        key[i] = (i & 0xff) as u8;
    }
    key
}

// The tag of one packet whose bytes count up from 0, under the nonce of zeros.
fn tag_of_packet<A: Aead>(cipher: &A) -> u128 {
    let mut packet: [u8; PACKET_LEN] = counting();
    u128::from_be_bytes(cipher.seal([0; 12], &ADDITIONAL_DATA, &mut packet))
}

// The bytes a second of the best round.
fn best_rate<A: Aead>(rt: &impl Clock, cipher: &A) -> io::Result<u64> {
    let mut packet = [0u8; PACKET_LEN];
    let mut least = u64::MAX;
    for _ in 0..ROUNDS {
        let start = Instant::now(rt)?;
        for _ in 0..PACKETS {
            let _tag = cipher.seal([0; 12], &ADDITIONAL_DATA, &mut packet);
        }
        let nanos = u64::try_from(start.elapsed(rt)?.as_nanos()).unwrap_or(u64::MAX);
        least = least.min(nanos);
    }
    Ok(1_000_000_000 * PACKET_LEN as u64 * u64::from(PACKETS) / least.max(1))
}

fn main(rt: HostRuntime) -> io::Result<()> {
    let short = Gcm128::new(&counting());
    let long = Gcm256::new(&counting());
    let mut words = env::args(&rt)?;
    let _program = words.next();
    match words.next() {
        Some(word) if word.as_str() == "time" => {
            println!(rt; "AES-128-GCM {}", best_rate(&rt, &short)?)?;
            println!(rt; "AES-256-GCM {}", best_rate(&rt, &long)?)
        }
        _ => {
            println!(rt; "AES-128-GCM {:032x}", tag_of_packet(&short))?;
            println!(rt; "AES-256-GCM {:032x}", tag_of_packet(&long))
        }
    }
}
