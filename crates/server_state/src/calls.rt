//! What a call of a client's session has done.

ghost use Rattle.std.specs.Prelude.{◌≡◌, ◌≤◌, ◌∷◌, [], drop, length};
ghost use Rattle.vpn_links.specs.Actions.{action};
ghost use Rattle.server_state.specs.Calls.{opens_in};

use vpn_links::{Effect, Outbox};

// Whether an effect opens an engine connection.
fn one_if_opens(effect: &Effect<'_>) -> u64
    ensures { result ≡ opens_in (action effect.now ∷ []) }
{
    match effect {
        Effect::EngineOpen { .. } => 1,
        _ => 0,
    }
}

/// How many engine connections the effects from this place on open.
pub fn count_opened(out: &Outbox, from: usize) -> u64
    requires { from ≤ length out.now.effects }
    ensures count { result ≡ opens_in (drop from out.now.effects) }
    ensures few { result ≤ length out.now.effects }
{
    let mut count = 0;
    for i in from..out.count() {
        let Some(effect) = out.effect(i) else {
            unreachable!();
        };
        count += one_if_opens(&effect);
    }
    count
}
