//! The static key that both ends share, and the text that it is kept in.

ghost use Rattle.std.specs.Prelude.{◌≡◌, ℕ, suc, ◌+◌, ◌≤◌, ◌<◌, ◌==◌, [], ◌∷◌, Ok, Err, length, IfSome, IfNone, IfOk, IfErr, if◌then◌else◌};
ghost use Rattle.tls_crypt.specs.StaticKey.{behind, body, digits_of, key_lines, static_key};

use vpn_base::{next_line, write_at};

// The line in front of the digits, and the line behind them.
const BEGIN: &[u8] = b"-----BEGIN OpenVPN Static key V1-----";

const END: &[u8] = b"-----END OpenVPN Static key V1-----";

// The lines of digits, and the bytes that each spells.
const DIGIT_LINES: u32 = 16;

const LINE_BYTES: usize = 16;

/// What is wrong with the text of a static key.
#[derive(Clone, Copy, Debug, PartialEq, Eq)]
pub enum KeyKind {
    /// No line begins a key.
    NoBegin,
    /// One of the 16 lines is not 32 hexadecimal digits, or is missing.
    Digits,
    /// The line that ends a key does not stand behind the 16 lines.
    NoEnd,
}

/// Where the text of a static key is wrong, and how.
#[derive(Clone, Copy, Debug, PartialEq, Eq)]
pub struct KeyFault {
    /// The line, counted from 1. It is the last one for `NoBegin`, and 0 if that text is empty.
    pub line: u32,
    /// What is wrong there.
    pub kind: KeyKind,
}

/// A static key of 256 bytes: two halves, each with 64 cipher bytes and 64 HMAC bytes.
#[derive(Clone, Copy)]
pub struct StaticKey(pub [u8; 256]);

// What follows the begin line, and the number of that line.
fn behind_begin(text: &[u8]) -> Result<(&[u8], u32), KeyFault>
    requires { length text.now ≤ 65536 }
    ensures found { IfOk result (λ r. static_key text.now ≡ body 16 r.1 (key_lines r.0.now)) }
    ensures fits { IfOk result (λ r. r.1 ≤ 65536) }
    ensures fault { IfErr result (λ fault. static_key text.now ≡ Err fault) }
{
    let mut rest = text;
    let mut number = 0;
    'lines: while let Some((line, behind)) = next_line(rest) {
        number += 1;
        rest = behind;
        if line == BEGIN {
            return Ok((rest, number));
        }
    }
    Err(KeyFault {
        line: number,
        kind: KeyKind::NoBegin,
    })
}

// The bytes that a line of 32 digits spells.
fn bytes_of(line: &[u8]) -> Option<[u8; LINE_BYTES]>
    ensures { result ≡ digits_of line.now }
{
    let mut bytes = [0; LINE_BYTES];
    match hex::decode_to_slice(line, &mut bytes) {
        Ok(()) => Some(bytes),
        Err(_) => None,
    }
}

// The bytes of the first line, which is one of digits, and what follows it.
fn digit_line(text: &[u8]) -> Option<([u8; LINE_BYTES], &[u8])>
    ensures digits { IfSome result (λ r. (count before : ℕ)
        → body (suc count) before (key_lines text.now) ≡ behind r.0 (body count (before + 1) (key_lines r.1.now))) }
    ensures others { IfNone result ((count before : ℕ)
        → body (suc count) before (key_lines text.now) ≡ Err (record { line = before + 1; kind = KeyKind.Digits })) }
{
    match next_line(text) {
        Some((line, rest)) => match bytes_of(line) {
            Some(bytes) => Some((bytes, rest)),
            None => None,
        },
        None => None,
    }
}

// Whether the first line is the end line.
fn ends(text: &[u8]) -> bool
    ensures { (before : ℕ) → body 0 before (key_lines text.now)
        ≡ (if result then Ok [] else Err (record { line = before + 1; kind = KeyKind.NoEnd })) }
{
    match next_line(text) {
        Some((line, _)) => line == END,
        None => false,
    }
}

// The key whose digits stand at the front, behind a begin line of this number.
fn key_behind(text: &[u8], begin: u32) -> Result<StaticKey, KeyFault>
    requires { begin ≤ 65536 }
    ensures key { IfOk result (λ key. body 16 begin (key_lines text.now) ≡ Ok key.0) }
    ensures fault { IfErr result (λ fault. body 16 begin (key_lines text.now) ≡ Err fault) }
{
    let mut key = [0; 256];
    let mut rest = text;
    'lines: for k in 0..DIGIT_LINES {
        match digit_line(rest) {
            Some(found) => {
                let bytes = found.0;
                write_at(&mut key, LINE_BYTES * k as usize, &bytes);
                rest = found.1;
            }
            None => {
                return Err(KeyFault {
                    line: begin + k + 1,
                    kind: KeyKind::Digits,
                });
            }
        }
    }
    if ends(rest) {
        Ok(StaticKey(key))
    } else {
        Err(KeyFault {
            line: begin + DIGIT_LINES + 1,
            kind: KeyKind::NoEnd,
        })
    }
}

/// The static key that a text of at most 65,536 bytes holds: any lines, a line
/// `-----BEGIN OpenVPN Static key V1-----`, 16 lines of 32 hexadecimal digits of either case, and
/// `-----END OpenVPN Static key V1-----`. Lines end by LF or CR LF.
///
/// `NoBegin` comes at the last line, `Digits` at the first of the 16 lines that is not 32 digits or
/// is missing, and `NoEnd` at the line where the end line should stand.
pub fn read_static_key(text: &[u8]) -> Result<StaticKey, KeyFault>
    requires { length text.now ≤ 65536 }
    ensures key { IfOk result (λ key. static_key text.now ≡ Ok key.0) }
    ensures fault { IfErr result (λ fault. static_key text.now ≡ Err fault) }
{
    match behind_begin(text) {
        Ok((rest, begin)) => key_behind(rest, begin),
        Err(fault) => Err(fault),
    }
}
