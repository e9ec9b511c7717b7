//! Writing a line to a sink.

ghost use Rattle.std.specs.Prelude.{◌≡◌, ◌≤◌, ◌<◌, length, take};
ghost use Rattle.vpn_base.specs.Answers.{Rose};
ghost use Rattle.vpn_base.specs.Sink.{appended};

use vpn_base::{Failed, Sink};

/// Writes a line, in as many calls as the sink needs, up to a failure. It answers how many bytes were written.
pub(crate) fn write_front<S: Sink>(sink: &mut S, text: &[u8]) -> usize
    ensures within { result ≤ length text.now }
    ensures wrote { S.contents sink.new ≡ appended (S.contents sink.old) (take result text.now) }
    ensures failed { result < length text.now → Rose (S.faults sink.old) (S.faults sink.new) }
    ensures never_falls { S.faults sink.old ≤ S.faults sink.new }
{
    let mut at = 0;
    while at < text.len() {
        match sink.write(&text[at..]) {
            Ok(n) => at += n,
            Err(Failed) => return at,
        }
    }
    at
}
