//! What holds of the locksteps of every game, whatever worlds their callers step.

ghost use Rattle.std.specs.{Prelude.◌≡◌, Prelude.◌≢◌, Prelude.◌∷◌, Prelude.[], Prelude.◌<◌, Prelude.◌≤◌, Prelude.◌+◌, Prelude.◌||◌, Prelude.ℕ, Prelude.ℤ, Prelude.Bool, Prelude.List, Prelude.true, Prelude.false, Prelude.Option};
ghost use Rattle.std.specs.{Prelude.Some, Prelude.Ok, Prelude.IfSome, Prelude.◌⊎◌, Prelude.get_or, Prelude.length, Prelude.pos, Prelude.slice_get, Option.option_map};
ghost use Rattle.dn_machine.specs.Drops as drops;
ghost use Rattle.dn_setup.specs.Settings.{IsSettings};
ghost use Rattle.dn_machine.specs.Started.{started_node};
ghost use Rattle.dn_lockstep.specs.{Opening.IsGame, OneGame.started_session};
ghost use Rattle.dn_tic.specs.{declared.command.Move.Move, declared.input.Input.Input, declared.command.TicCmd.TicCmd};
ghost use Rattle.dn_setup.specs.Settings.{Settings, start_of};
ghost use Rattle.dn_demo.specs.{Layout.long_tics, Reading.IsReadAs, Reading.written_demo};
ghost use Rattle.dn_machine.specs.{declared.answers.Cause.Cause, declared.answers.Heard.Heard, declared.answers.Made.Made, declared.answers.Phase.TheVariants.Ended, declared.answers.Ran.Ran};
ghost use Rattle.dn_machine.specs.{Sending.on_build, Flight.Flight, Flight.is_near, Game.fresh, Limits.Limits, Limits.IsWindow, Progress.IsSwift, Progress.GoesInto, Nearness.is_start_near};
ghost use Rattle.dn_machine.specs.{Node.demo_rows, Node.is_ended, Promise.Agree, Promise.Fits, Promise.Steady, Running.is_over, Running.on_run, Running.on_quit, Worlds.command};
ghost use Rattle.dn_lockstep.specs.{declared.config.Config.Config, Opening.CanBeAhead, Opening.FitsPackets, Opening.limits_in, Opening.limits_within, Told.command_told, Told.made, Contents.Contents};
ghost use Rattle.dn_lockstep.specs.{Contents.end_in, Hearing.HearsNear, Marking.Marking, Sent.IsFair, OneGame.beside, OneGame.world_told, OneGame.AreOneGame, OneGame.IsGivenAs, Agreed.AreAgreed};
ghost use Rattle.dn_lockstep.specs.{Agreed.rows_to, Phases.is_listening, Represents.Represents, Rows.seats_of, Steps.RunsBy, Sent.sent_to, Sent.bytes_of, OneGame.Session, OneGame.opening_session};
ghost use Rattle.dn_lockstep.specs.{OneGame.with_lockstep, OneGame.after_build, OneGame.after_packet, OneGame.after_relays, OneGame.after_run, Steps.Steps, Steps.Tells};
ghost use Rattle.dn_machine.specs.Relaying.{packet_of_one};
ghost use Rattle.dn_machine.specs.Node as machine;

/// Each window that a lockstep can have is one of which the laws of `dn_machine` speak (`every_window_agrees`,
/// `no_deadlock_in_windows`). All that a lockstep keeps goes into one packet up to six ahead, into two up to
/// eleven, and at twelve too if no packet repeats a command; else into three. A packet carries at most twelve
/// commands. If no window is asked for, it is five.
pub fn windows_hold()
    ensures window { (config : Config) (ahead : ℕ) → CanBeAhead ahead → IsWindow (limits_within config ahead) }
    ensures swift { (config : Config) (ahead : ℕ) → CanBeAhead ahead → IsSwift (limits_within config ahead) }
    ensures one { (config : Config) (ahead : ℕ) → CanBeAhead ahead → ahead ≤ 6
        → GoesInto (limits_within config ahead) 1 }
    ensures two { (config : Config) (ahead : ℕ) → CanBeAhead ahead → (ahead ≤ 11) ⊎ (config.extra ≡ false)
        → GoesInto (limits_within config ahead) 2 }
    ensures three { (config : Config) (ahead : ℕ) → CanBeAhead ahead → GoesInto (limits_within config ahead) 3 }
    ensures packets { (config : Config) (ahead : ℕ) → FitsPackets (limits_within config ahead) }
    ensures vanilla { (config : Config) → limits_within config 5 ≡ limits_in config }
{}

/// New locksteps of the same limits, one for each player, of which player 0's has these settings, are those of
/// one game. The limits are those of a window, as `windows_hold` says of every lockstep's.
#[tactic(auto, using(crate::proofs::OneGame::opens))]
pub fn one_game_opens()
    ensures { (marking : Marking) (limits : Limits) (settings : Settings) (locksteps : ℕ → Contents)
        → IsWindow limits
        → ((player : ℕ) → player < limits.players
        → Represents limits player (locksteps player) (fresh settings player))
        → AreOneGame marking limits settings (opening_session locksteps) }
{}

/// And so are those that play from the beginning on, as `Lockstep::started` makes them.
pub fn one_game_starts()
    ensures { (marking : Marking) (limits : Limits) (settings : Settings) (locksteps : ℕ → Contents)
        (window : IsWindow limits) → IsGame limits.players → IsSettings settings
        → ((player : ℕ) → player < limits.players
        → Represents limits player (locksteps player) (started_node limits.players settings player))
        → AreOneGame marking limits settings (started_session limits.players settings locksteps) }
{}

/// And so they stay after each call on one of them whose caller keeps the duty: it hands in datagrams as they
/// were given, to whom they were given, from no more than 64 tics away, and at a run the marks of a world
/// that moved on by the rows that it was told. Each clause takes what the call's own contract says. `kept` is
/// for a call that changes nothing: a datagram that is dropped, whatever its bytes are, a run that waits, a
/// build that is full.
pub fn one_game_goes_on()
    ensures built { (marking : Marking) (limits : Limits) (settings : Settings) (session : Session) (player : ℕ)
        (new : Contents) (input : Input) (made : Made)
        → AreOneGame marking limits settings session → player < limits.players
        → Steps (session.locksteps player) new (λ limits me m. on_build limits me m input) (λ answer. made ≡ answer)
        → AreOneGame marking limits settings (after_build session player input made new) }
    ensures gave { (marking : Marking) (limits : Limits) (settings : Settings) (session : Session)
        (player to : ℕ) (new : Contents) (bytes : Option (List ℕ))
        → AreOneGame marking limits settings session → player < limits.players
        → Tells (session.locksteps player) (λ limits me m. IfSome (sent_to to limits me m).1 IsFair)
        → Steps (session.locksteps player) new (λ limits me m. sent_to to limits me m)
        (λ flight. bytes ≡ option_map bytes_of flight)
        → (flight : Option Flight) × IsGivenAs (session.locksteps player) player to bytes flight
        × AreOneGame marking limits settings (after_packet session player flight new) }
    ensures heard { (marking : Marking) (limits : Limits) (settings : Settings) (session : Session) (which : ℕ)
        (flight : Flight) (new : Contents) (heard : Heard)
        → AreOneGame marking limits settings session → slice_get session.given which ≡ Some flight
        → is_near (made (session.locksteps flight.to)) flight ≡ true
        → HearsNear flight.from (bytes_of flight) (session.locksteps flight.to) new heard
        → AreOneGame marking limits settings (with_lockstep session flight.to new) }
    ensures ran { (marking : Marking) (limits : Limits) (settings : Settings) (session : Session) (player : ℕ)
        (new : Contents) (marks : List ℤ) (ran : Ran) (row : Option (List (Option Move)))
        → AreOneGame marking limits settings session → player < limits.players
        → ((tic : ℕ) (other : ℕ) → ran ≡ Ran.Ran tic → other < limits.players
        → is_over (end_in (session.locksteps player) other) (session.locksteps player).ran ≡ false
        → get_or marks other (pos 0) ≡ marking (world_told limits settings (session.told player)) other)
        → RunsBy marks (session.locksteps player) new (λ limits m marks. on_run limits m marks)
        (λ answer told. (ran ≡ answer) × (row ≡ told))
        → AreOneGame marking limits settings (after_run session player row new) }
    ensures quit { (marking : Marking) (limits : Limits) (settings : Settings) (session : Session) (player : ℕ)
        (new : Contents) (quit : Bool)
        → AreOneGame marking limits settings session → player < limits.players
        → Steps (session.locksteps player) new (λ limits me m. on_quit m) (λ answer. quit ≡ answer)
        → AreOneGame marking limits settings (with_lockstep session player new) }
    ensures relayed { (marking : Marking) (limits : Limits) (settings : Settings) (session : Session)
        (giver player to tic : ℕ) (command : TicCmd)
        → AreOneGame marking limits settings session → giver < limits.players → player < limits.players
        → to < limits.players → player ≢ to
        → command_told (session.locksteps giver) player tic ≡ Some command
        → IsFair (packet_of_one player to tic command)
        → AreOneGame marking limits settings (after_relays session (packet_of_one player to tic command ∷ [])) }
    ensures kept { (marking : Marking) (limits : Limits) (settings : Settings) (session : Session) (player : ℕ)
        (new : Contents)
        → AreOneGame marking limits settings session → new ≡ session.locksteps player
        → AreOneGame marking limits settings (with_lockstep session player new) }
{}

/// The locksteps of one game agree in what their readers return. The rows that were returned to each caller are
/// those of the inputs that the players' builds took, one for each tic that the lockstep ran, and a command
/// that one returns is the one that its player's inputs make, with its mark. The machine's game that they
/// represent agrees, fits and is steady.
pub fn locksteps_agree()
    ensures agreed { (marking : Marking) (limits : Limits) (settings : Settings) (session : Session)
        → AreOneGame marking limits settings session
        → AreAgreed limits settings session.inputs session.locksteps }
    ensures told { (marking : Marking) (limits : Limits) (settings : Settings) (session : Session) (player : ℕ)
        → AreOneGame marking limits settings session → player < limits.players
        → session.told player ≡ rows_to limits.players session.inputs (session.locksteps player).ran }
    ensures ran { (marking : Marking) (limits : Limits) (settings : Settings) (session : Session) (player : ℕ)
        → AreOneGame marking limits settings session → player < limits.players
        → (session.locksteps player).ran ≡ length (session.told player) }
    ensures commands { (marking : Marking) (limits : Limits) (settings : Settings) (session : Session)
        (here player tic : ℕ) (one : TicCmd)
        → AreOneGame marking limits settings session → here < limits.players
        → command_told (session.locksteps here) player tic ≡ Some one
        → one ≡ command (beside marking limits) settings session.inputs player tic }
    ensures game_agrees { (marking : Marking) (limits : Limits) (settings : Settings) (session : Session)
        → (game : AreOneGame marking limits settings session) → Agree (beside marking limits) settings game.last }
    ensures game_fits { (marking : Marking) (limits : Limits) (settings : Settings) (session : Session)
        → (game : AreOneGame marking limits settings session) → Fits (beside marking limits) game.last }
    ensures game_steady { (marking : Marking) (limits : Limits) (settings : Settings) (session : Session)
        → (game : AreOneGame marking limits settings session) → Steady (beside marking limits) game.last }
{}

/// A packet that one of them gave is near its receiver, whenever it comes, if its first tic lies within 64
/// less the window of the number of commands that the receiver has made; for the tic that it asks for, if it
/// asks for one, lies at most the window before the first, and not past that number.
pub fn numbered_packets_are_near()
    ensures near { (marking : Marking) (limits : Limits) (settings : Settings) (session : Session) (which : ℕ)
        (flight : Flight)
        → AreOneGame marking limits settings session
        → slice_get session.given which ≡ Some flight
        → is_start_near limits (made (session.locksteps flight.to)) flight.start ≡ true
        → is_near (made (session.locksteps flight.to)) flight ≡ true }
    ensures asks { (marking : Marking) (limits : Limits) (settings : Settings) (session : Session) (which : ℕ)
        (flight : Flight) (tic : ℕ)
        → AreOneGame marking limits settings session
        → slice_get session.given which ≡ Some flight → flight.request ≡ Some tic
        → (flight.start ≤ tic + limits.ahead) × (tic ≤ made (session.locksteps flight.to)) }
{}

/// A packet that one of them gave, and that comes as it was given from no more than 64 tics away, is dropped
/// only as set-up out of place, or by a lockstep that does not play: one that still listens, or has ended.
pub fn given_packets_are_heard()
    ensures not_playing { (marking : Marking) (limits : Limits) (settings : Settings) (session : Session)
        (which : ℕ) (flight : Flight) (new : Contents) (heard : Heard)
        → AreOneGame marking limits settings session
        → slice_get session.given which ≡ Some flight
        → is_near (made (session.locksteps flight.to)) flight ≡ true
        → HearsNear flight.from (bytes_of flight) (session.locksteps flight.to) new heard
        → heard ≡ Heard.Dropped drops.not_playing
        → (is_listening (session.locksteps flight.to).phase || is_ended (session.locksteps flight.to).phase)
        ≡ true }
    ensures dropped { (marking : Marking) (limits : Limits) (settings : Settings) (session : Session) (which : ℕ)
        (flight : Flight) (new : Contents) (heard : Heard) (number : ℕ)
        → AreOneGame marking limits settings session
        → slice_get session.given which ≡ Some flight
        → is_near (made (session.locksteps flight.to)) flight ≡ true
        → HearsNear flight.from (bytes_of flight) (session.locksteps flight.to) new heard
        → heard ≡ Heard.Dropped number → (number ≡ drops.out_of_place) ⊎ (number ≡ drops.not_playing) }
{}

/// The demo of a lockstep that has played and ended is read back to what it was played from, with its own
/// number as view, to its players and to the rows that it told before the first that lacks a player.
#[tactic(auto, using(crate::proofs::Moving::read_back))]
pub fn ended_demos_are_read()
    ensures { (limits : Limits) (me : ℕ) (n : Contents)
        (m : machine.Node) (settings : Settings) (cause : Cause)
        → Represents limits me n m
        → m.played ≡ true → m.phase ≡ Ended cause → m.settings ≡ Some settings
        → IsReadAs n.demo.bytes (Ok (written_demo long_tics (start_of settings) me (seats_of limits.players)
        (demo_rows limits.players m))) }
{}
