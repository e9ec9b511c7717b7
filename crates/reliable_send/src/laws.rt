//! Laws over the definitions, for those who send what is ready or due piece by piece.

ghost use Rattle.std.specs.Prelude.{◌≡◌, ℕ, ◌≤◌, List, ◌∷◌, length};
ghost use Rattle.reliable_send.specs.Sending.{Sending, Numbered, ready, due, sent};
ghost use Rattle.reliable_send.specs.Sides.{Side, Stands, in_flight};

/// Once the first piece that may be sent was sent, the others may be sent still, and no more.
pub fn ready_shrinks()
    ensures { (h : Sending) (p : Numbered) (rest : List Numbered) (now : ℕ)
        → ready h ≡ p ∷ rest → ready (sent h p.0 now) ≡ rest }
{}

/// At most 6 pieces may be sent at a time, at most 6 are due, and at most 6 are in flight, which are
/// those that were sent and are not acknowledged.
pub fn few_are_ready()
    ensures ready { (side : Side) (h : Sending) → Stands side h → length (ready h) ≤ 6 }
    ensures due { (side : Side) (h : Sending) (now : ℕ) → Stands side h → length (due h now) ≤ 6 }
    ensures in_flight { (side : Side) (h : Sending) → Stands side h → length (in_flight h) ≤ 6 }
{}

/// A side's timeout is 1 to 60 seconds, for its whole life.
pub fn timeout_is_kept()
    ensures some { (side : Side) (h : Sending) → Stands side h → 1 ≤ h.timeout }
    ensures most { (side : Side) (h : Sending) → Stands side h → h.timeout ≤ 60 }
{}

/// Once the first piece that is due was sent again, the others are due still, and no more, and the same
/// pieces may be sent for the first time.
pub fn due_shrinks()
    ensures due { (h : Sending) (p : Numbered) (rest : List Numbered) (now : ℕ)
        → 1 ≤ h.timeout → due h now ≡ p ∷ rest → due (sent h p.0 now) now ≡ rest }
    ensures ready { (h : Sending) (p : Numbered) (rest : List Numbered) (now : ℕ)
        → due h now ≡ p ∷ rest → ready (sent h p.0 now) ≡ ready h }
{}
