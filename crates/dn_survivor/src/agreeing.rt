//! What holds of the survivors of every game, whatever worlds their callers step.

ghost use Rattle.std.specs.Prelude.{◌≡◌, ◌<◌, ◌⊎◌, ℕ, true, false, None, Some, slice_get};
ghost use Rattle.dn_setup.specs.Settings.{Settings};
ghost use Rattle.dn_machine.specs.{declared.answers.Heard.Heard, Flight.Flight, Flight.is_near, Limits.Limits};
ghost use Rattle.dn_machine.specs.Drops as drops;
ghost use Rattle.dn_lockstep.specs.{Hearing.HearsNear, Marking.Marking, OneGame.beside, Sent.bytes_of, Settling.is_no_peer, Told.made, declared.lockstep.settling.Settled.Settled};
ghost use Rattle.dn_remain.specs.Promise.{AgreeInPairs, FitsInPairs, SteadyInPairs};
ghost use Rattle.dn_survivor.specs.{Agreed.AreAgreedInPairs, Agreed.FitInPairs, Calls.GivesUp, Calls.HearsReport, Calls.undecided_in, Calls.unsettled_in, Agreed.DemosAgreeInPairs};
ghost use Rattle.dn_survivor.specs.{OneGame.AreRemaining, OneGame.Given, OneGame.Session, Surviving.Surviving, Surviving.has_given_up, declared.answers.GivenUp.GivenUp};
ghost use Rattle.dn_survivor.specs.{declared.answers.Reported.Reported};

/// The survivors of one game agree in what their readers return, and in the rows that were returned to their
/// callers. Any two of whom neither has given up the other told the same rows, know the same ends, and lack at
/// most twice the window of what the other has. Any two at all tell the same commands and used the same moves
/// of every player that both have; of their demos one is a prefix of the other. The game of `dn_remain` that
/// they represent agrees, fits and is steady. The premise is what `remaining_game_opens` establishes, and
/// `remaining_game_goes_on` keeps.
pub fn survivors_agree()
    ensures agreed { (marking : Marking) (limits : Limits) (settings : Settings) (session : Session)
        → AreRemaining marking limits settings session → AreAgreedInPairs limits settings session }
    ensures fit { (marking : Marking) (limits : Limits) (settings : Settings) (session : Session)
        → AreRemaining marking limits settings session → FitInPairs limits session }
    ensures demos { (marking : Marking) (limits : Limits) (settings : Settings) (session : Session)
        → AreRemaining marking limits settings session → DemosAgreeInPairs limits.players settings session }
    ensures game_agrees { (marking : Marking) (limits : Limits) (settings : Settings) (session : Session)
        → (game : AreRemaining marking limits settings session)
        → AgreeInPairs (beside marking limits) settings game.last }
    ensures game_fits { (marking : Marking) (limits : Limits) (settings : Settings) (session : Session)
        → (game : AreRemaining marking limits settings session) → FitsInPairs limits game.last }
    ensures game_steady { (marking : Marking) (limits : Limits) (settings : Settings) (session : Session)
        → (game : AreRemaining marking limits settings session) → SteadyInPairs limits game.last }
{}

/// In such a game no decision is refused: neither `give_up` nor `hear`, of a report that one of the survivors
/// gave and that comes as it was given, answers `Untaken`. So where one is answered, some report was false.
pub fn decisions_are_taken()
    ensures gave_up { (marking : Marking) (limits : Limits) (settings : Settings) (session : Session)
        (here player other : ℕ) (new : Surviving) (reason : Settled)
        → AreRemaining marking limits settings session → here < limits.players
        → GivesUp player (session.survivors here) new (GivenUp.Untaken other reason) → ⊥ }
    ensures reported { (marking : Marking) (limits : Limits) (settings : Settings) (session : Session)
        (which other : ℕ) (given : Given) (new : Surviving) (reason : Settled)
        → AreRemaining marking limits settings session → slice_get session.reports which ≡ Some given
        → HearsReport given.from given.report (session.survivors given.to) new (Reported.Untaken other reason)
        → ⊥ }
{}

/// A report that one of them gave, and that comes as it was given, is never `Excluded` or `Improper`, since
/// its sender tells nothing to one whom it has given up, and nothing of the two. It is dropped only by one that
/// does not play, or that has given up its sender. A packet that comes so, from no more than 64 tics away, is
/// dropped for these two reasons alone, and as set-up out of place.
pub fn given_reports_are_heard()
    ensures not_excluded { (marking : Marking) (limits : Limits) (settings : Settings) (session : Session)
        (which : ℕ) (given : Given) (new : Surviving)
        → AreRemaining marking limits settings session → slice_get session.reports which ≡ Some given
        → HearsReport given.from given.report (session.survivors given.to) new Reported.Excluded → ⊥ }
    ensures proper { (marking : Marking) (limits : Limits) (settings : Settings) (session : Session)
        (which : ℕ) (given : Given) (new : Surviving)
        → AreRemaining marking limits settings session → slice_get session.reports which ≡ Some given
        → HearsReport given.from given.report (session.survivors given.to) new Reported.Improper → ⊥ }
    ensures dropped { (marking : Marking) (limits : Limits) (settings : Settings) (session : Session)
        (which number : ℕ) (given : Given) (new : Surviving)
        → AreRemaining marking limits settings session → slice_get session.reports which ≡ Some given
        → HearsReport given.from given.report (session.survivors given.to) new (Reported.Dropped number)
        → (number ≡ drops.not_playing)
        ⊎ ((number ≡ 15) × (has_given_up (session.survivors given.to) given.from ≡ true)) }
    ensures packets { (marking : Marking) (limits : Limits) (settings : Settings) (session : Session)
        (which number : ℕ) (packet : Flight) (new : Surviving)
        → AreRemaining marking limits settings session → slice_get session.packets which ≡ Some packet
        → is_near (made (session.survivors packet.to).lockstep) packet ≡ true
        → has_given_up (session.survivors packet.to) packet.from ≡ false
        → HearsNear packet.from (bytes_of packet) (session.survivors packet.to).lockstep new.lockstep
        (Heard.Dropped number)
        → (number ≡ drops.out_of_place) ⊎ (number ≡ drops.not_playing) }
{}

/// In such a game a survivor with an end that is not settled lacks a report, and `undecided` names whose. Where
/// `give_up` or `hear` answers `Decided`, `unsettled` names nobody.
pub fn unsettled_ends_lack_a_report()
    ensures lacks { (marking : Marking) (limits : Limits) (settings : Settings) (session : Session)
        (here player : ℕ)
        → AreRemaining marking limits settings session → here < limits.players
        → unsettled_in (session.survivors here) ≡ Some player
        → (missing : ℕ) × (undecided_in (session.survivors here) ≡ Some missing) }
    ensures gave_up { (marking : Marking) (limits : Limits) (settings : Settings) (session : Session)
        (here player : ℕ) (new : Surviving)
        → AreRemaining marking limits settings session → here < limits.players
        → GivesUp player (session.survivors here) new GivenUp.Decided → unsettled_in new ≡ None }
    ensures reported { (marking : Marking) (limits : Limits) (settings : Settings) (session : Session)
        (which : ℕ) (given : Given) (new : Surviving)
        → AreRemaining marking limits settings session → slice_get session.reports which ≡ Some given
        → HearsReport given.from given.report (session.survivors given.to) new Reported.Decided
        → unsettled_in new ≡ None }
{}
