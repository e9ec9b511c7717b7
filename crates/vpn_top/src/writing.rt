//! Writing all of a text to a sink.

ghost use Rattle.std.specs.Prelude.{◌≡◌, ◌≤◌, ℕ, take, OnOk, OnErr};
ghost use Rattle.vpn_base.specs.Answers.{Rose};
ghost use Rattle.vpn_base.specs.Sink.{appended};
ghost use Rattle.vpn_top.specs.Partly.{AppendedPart};

use vpn_base::{Failed, Sink};

/// Writes all of it, in as many calls as the sink needs. After a failure a front of it was written.
pub(crate) fn write_all<S: Sink>(sink: &mut S, text: &[u8]) -> Result<(), Failed>
    ensures ok { OnOk result (S.contents sink.new ≡ appended (S.contents sink.old) text.now) }
    ensures part { OnErr result (AppendedPart (S.contents sink.old) (S.contents sink.new) text.now) }
    ensures failed { OnErr result (Rose (S.faults sink.old) (S.faults sink.new)) }
    ensures never_falls { S.faults sink.old ≤ S.faults sink.new }
{
    let mut at = 0;
    while at < text.len() {
        match sink.write(&text[at..]) {
            Ok(n) => at += n,
            Err(failed) => return Err(failed),
        }
    }
    Ok(())
}
