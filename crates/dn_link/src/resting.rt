//! That no peer is left without datagrams for long, nor without packets.

ghost use Rattle.std.specs.Prelude.{◌≡◌, ℕ, true, false};
ghost use Rattle.dn_link.specs.{Pace.given_to, Pacing.{PaceState, is_brief}};
ghost use Rattle.dn_link.specs.Congestion.{GoesBy, rests};
ghost use Rattle.dn_link.specs.declared.congestion.Congestion.{Congestion};

/// Of four ticks in a row there is one at which a player does not rest, whatever is reported and made meanwhile.
/// And of three datagrams that are given to a peer one after the other, each as the first since a tick, one at least is
/// not brief.
pub fn players_rest_briefly()
    ensures rest { (first second third fourth : Congestion) (me player : ℕ)
        → GoesBy first second → GoesBy second third → GoesBy third fourth
        → rests first me player ≡ true → rests second me player ≡ true → rests third me player ≡ true
        → rests fourth me player ≡ false }
    ensures brief { (first second third : PaceState) (to : ℕ)
        → first.given to ≡ false → is_brief first to ≡ true
        → second.given to ≡ false → second.briefs to ≡ (given_to to first).briefs to → is_brief second to ≡ true
        → third.given to ≡ false → third.briefs to ≡ (given_to to second).briefs to → is_brief third to ≡ false }
{}
