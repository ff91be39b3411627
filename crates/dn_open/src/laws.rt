//! What holds of packets that were opened.

ghost use Rattle.std.specs.Prelude.{◌≡◌, ℕ, Some, slice_get};
ghost use Rattle.dn_setup.specs.Settings.{Settings};
ghost use Rattle.dn_machine.specs.{Flight.Flight, Limits.Limits};
ghost use Rattle.dn_lockstep.specs.Contents.{Contents};
ghost use Rattle.dn_lockstep.specs.OneGame.{beside, AreOneGame, Session, with_lockstep};
ghost use Rattle.dn_lockstep.specs.Told.{made};
ghost use Rattle.dn_lockstep.specs.Marking.{Marking};
ghost use Rattle.dn_open.specs.{Arrivals.HearsOpened, Arrivals.IsDeliveredAs, declared.hearing.Arrived.Arrived, Sealed.opened_of};

/// What `hear` does to one of the locksteps of one game, with what its player opens a packet as that was given
/// to this player, leaves them those of one game, whenever the packet comes and however often.
pub fn letters_keep_one_game()
    ensures { (marking : Marking) (limits : Limits) (settings : Settings) (session : Session) (which : ℕ)
        (flight : Flight) (new : Contents) (answer : Arrived)
        → AreOneGame marking limits settings session
        → slice_get session.given which ≡ Some flight
        → HearsOpened (opened_of flight) (session.locksteps flight.to) new answer
        → AreOneGame marking limits settings (with_lockstep session flight.to new) }
{}

/// And what `hear` answers to it is the answer of the packet's delivery in the game, if its tics lie within 64
/// of the number of commands that the lockstep has made, and else `Late`. There is one such answer.
pub fn letters_are_answered()
    ensures answered { (marking : Marking) (limits : Limits) (settings : Settings) (session : Session) (which : ℕ)
        (flight : Flight) (new : Contents) (answer : Arrived)
        → (game : AreOneGame marking limits settings session)
        → slice_get session.given which ≡ Some flight
        → HearsOpened (opened_of flight) (session.locksteps flight.to) new answer
        → IsDeliveredAs (beside marking limits) game.last (made (session.locksteps flight.to)) which flight
        answer }
    ensures only { (marking : Marking) (limits : Limits) (settings : Settings) (session : Session) (which : ℕ)
        (flight : Flight) (new : Contents) (answer other : Arrived)
        → (game : AreOneGame marking limits settings session)
        → slice_get session.given which ≡ Some flight
        → HearsOpened (opened_of flight) (session.locksteps flight.to) new answer
        → IsDeliveredAs (beside marking limits) game.last (made (session.locksteps flight.to)) which flight other
        → answer ≡ other }
{}
