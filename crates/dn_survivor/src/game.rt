//! The survivors of one game, call by call.

ghost use Rattle.dn_setup.specs.Settings.{IsSettings};
ghost use Rattle.dn_machine.specs.Started.{started_node};
ghost use Rattle.dn_lockstep.specs.Opening.{IsGame};
ghost use Rattle.dn_survivor.specs.OneGame.{started_session};
ghost use Rattle.std.specs.{Prelude.◌≡◌, Prelude.◌≢◌, Prelude.◌<◌, Prelude.◌≤◌, Prelude.ℕ, Prelude.ℤ, Prelude.Bool, Prelude.true, Prelude.false, Prelude.List, Prelude.Option, Prelude.Some};
ghost use Rattle.std.specs.{Prelude.get_or, Prelude.pos, Prelude.slice_get, Option.option_map, Prelude.IfSome};
ghost use Rattle.dn_tic.specs.{declared.command.Move.Move, declared.input.Input.Input};
ghost use Rattle.dn_setup.specs.Settings.{Settings};
ghost use Rattle.dn_survivor.specs.declared.report.Report.{Report};
ghost use Rattle.dn_machine.specs.Drops as drops;
ghost use Rattle.dn_machine.specs.declared.answers.Heard.{Heard};
ghost use Rattle.dn_machine.specs.declared.answers.Made.{Made};
ghost use Rattle.dn_machine.specs.declared.answers.Ran.{Ran};
ghost use Rattle.dn_machine.specs.Sending.{on_build};
ghost use Rattle.dn_machine.specs.Flight.{Flight, is_near};
ghost use Rattle.dn_machine.specs.Game.{fresh};
ghost use Rattle.dn_machine.specs.Limits.{Limits};
ghost use Rattle.dn_machine.specs.{Limits.IsWindow, Running.is_over, Running.on_quit, Sparing.on_run_but};
ghost use Rattle.dn_lockstep.specs.Contents.{end_in};
ghost use Rattle.dn_lockstep.specs.Hearing.{HearsNear, Spares};
ghost use Rattle.dn_lockstep.specs.Marking.{Marking};
ghost use Rattle.dn_lockstep.specs.Sent.{IsFair, bytes_of, sent_to};
ghost use Rattle.dn_lockstep.specs.OneGame.{world_told};
ghost use Rattle.dn_lockstep.specs.Steps.{RunsBy, Steps};
ghost use Rattle.std.specs.{Prelude.◌∷◌, Prelude.[]};
ghost use Rattle.dn_tic.specs.declared.command.TicCmd.{TicCmd};
ghost use Rattle.dn_machine.specs.Relaying.{packet_of_one};
ghost use Rattle.dn_survivor.specs.{Telling.MayRelay, OneGame.after_relays};
ghost use Rattle.dn_lockstep.specs.{Steps.Tells, Told.made, Told.command_told};
ghost use Rattle.dn_lockstep.specs.Represents as lockstep;
ghost use Rattle.dn_survivor.specs.OfOthers.{nothing_kept};
ghost use Rattle.dn_survivor.specs.{Calls.GivesUp, Calls.HearsReport, Calls.sent_unless, OneGame.AreRemaining, OneGame.IsGivenAs, OneGame.Given, OneGame.Session, OneGame.after_build};
ghost use Rattle.dn_survivor.specs.{OneGame.after_packet, OneGame.after_report, OneGame.after_run, OneGame.opening_session, OneGame.with_survivor, Surviving.Surviving, Surviving.has_given_up};
ghost use Rattle.dn_survivor.specs.{Telling.report_for, declared.answers.GivenUp.GivenUp, declared.answers.Reported.Reported};

/// New survivors of the same limits, one for each player, of which player 0's has these settings, are those of
/// one game. Each premise is what `Survivor::new` says of one of them, by its clauses `opened` and `others`;
/// the limits are those of a window of a game of four at most, as `windows_hold` and `new`'s `admitted` say.
#[tactic(auto, using(crate::proofs::OneGame::opens))]
pub fn remaining_game_opens()
    ensures { (marking : Marking) (limits : Limits) (settings : Settings) (survivors : ℕ → Surviving)
        → IsWindow limits → limits.players ≤ 4 → limits.places ≤ 24
        → ((player : ℕ) → player < limits.players
        → lockstep.Represents limits player (survivors player).lockstep (fresh settings player))
        → ((player : ℕ) → player < limits.players → (survivors player).others ≡ nothing_kept)
        → AreRemaining marking limits settings (opening_session survivors) }
{}

/// And so are those that play from the beginning on, as `Survivor::started` makes them.
pub fn remaining_game_starts()
    ensures { (marking : Marking) (limits : Limits) (settings : Settings) (survivors : ℕ → Surviving)
        → IsWindow limits → IsGame limits.players → limits.places ≤ 24 → IsSettings settings
        → ((player : ℕ) → player < limits.players
        → lockstep.Represents limits player (survivors player).lockstep (started_node limits.players settings player))
        → ((player : ℕ) → player < limits.players → (survivors player).others ≡ nothing_kept)
        → AreRemaining marking limits settings (started_session limits.players settings survivors) }
{}

/// And so they stay after each call on one of them whose caller keeps the duty. Each clause takes what the
/// call's own contract says, and the new survivor where it says it: `others` is the clause `others` of the
/// call, and `lockstep_mut` says the same by what it writes back. The duty is: a datagram comes as it was given,
/// to whom it was given, from no more than 64 tics away (`heard`); a report comes as it was given, to whom it was
/// given (`reported`); and a run is handed the marks of a world that moved on by the rows that its caller was
/// told, of the players who take part in the tic (`ran`). Whom a survivor gives up, and when, is not asked.
/// `built` is of the lockstep's `build` and `give`, `quit` of its `quit`, `gave` of `packet`, `gave_to` of
/// `packet_to`, `told` of `report`, and `kept` of a call that changes nothing.
#[tactic(auto, using(crate::proofs::OneGame::builds, crate::proofs::OneGame::gave_to, crate::proofs::OneGame::gives, crate::proofs::OneGame::gives_up, crate::proofs::OneGame::hears, crate::proofs::OneGame::quits, crate::proofs::OneGame::relays, crate::proofs::OneGame::reports, crate::proofs::OneGame::runs, crate::proofs::OneGame::tells, crate::proofs::OneGame::keeps))]
pub fn remaining_game_goes_on()
    ensures built { (marking : Marking) (limits : Limits) (settings : Settings) (session : Session) (player : ℕ)
        (new : Surviving) (input : Input) (made : Made)
        → AreRemaining marking limits settings session → player < limits.players
        → Steps (session.survivors player).lockstep new.lockstep (λ limits me m. on_build limits me m input)
        (λ answer. made ≡ answer)
        → new.others ≡ (session.survivors player).others
        → AreRemaining marking limits settings (after_build session player input made new) }
    ensures gave { (marking : Marking) (limits : Limits) (settings : Settings) (session : Session)
        (player to : ℕ) (new : Surviving) (bytes : Option (List ℕ))
        → AreRemaining marking limits settings session → player < limits.players
        → Tells (session.survivors player).lockstep
        (λ limits me m. IfSome (sent_unless (session.survivors player).others to limits me m).1 IsFair)
        → Steps (session.survivors player).lockstep new.lockstep
        (λ limits me m. sent_unless (session.survivors player).others to limits me m)
        (λ packet. bytes ≡ option_map bytes_of packet)
        → new.others ≡ (session.survivors player).others
        → (packet : Option Flight) × IsGivenAs (session.survivors player) player to bytes packet
        × AreRemaining marking limits settings (after_packet session player packet new) }
    ensures gave_to { (marking : Marking) (limits : Limits) (settings : Settings) (session : Session)
        (player to : ℕ) (new : Surviving) (bytes : Option (List ℕ))
        → AreRemaining marking limits settings session → player < limits.players
        → has_given_up (session.survivors player) to ≡ false
        → Tells (session.survivors player).lockstep (λ limits me m. IfSome (sent_to to limits me m).1 IsFair)
        → Steps (session.survivors player).lockstep new.lockstep (λ limits me m. sent_to to limits me m)
        (λ packet. bytes ≡ option_map bytes_of packet)
        → new.others ≡ (session.survivors player).others
        → (packet : Option Flight) × IsGivenAs (session.survivors player) player to bytes packet
        × AreRemaining marking limits settings (after_packet session player packet new) }
    ensures heard { (marking : Marking) (limits : Limits) (settings : Settings) (session : Session) (which : ℕ)
        (packet : Flight) (new : Surviving) (heard : Heard)
        → AreRemaining marking limits settings session → slice_get session.packets which ≡ Some packet
        → is_near (made (session.survivors packet.to).lockstep) packet ≡ true
        → (has_given_up (session.survivors packet.to) packet.from ≡ false
        → HearsNear packet.from (bytes_of packet) (session.survivors packet.to).lockstep new.lockstep heard)
        → (has_given_up (session.survivors packet.to) packet.from ≡ true → heard ≡ Heard.Dropped drops.given_up)
        → Spares (session.survivors packet.to) new heard
        → new.others ≡ (session.survivors packet.to).others
        → AreRemaining marking limits settings (with_survivor session packet.to new) }
    ensures ran { (marking : Marking) (limits : Limits) (settings : Settings) (session : Session) (player : ℕ)
        (new : Surviving) (marks : List ℤ) (ran : Ran) (row : Option (List (Option Move)))
        → AreRemaining marking limits settings session → player < limits.players
        → ((tic : ℕ) (other : ℕ) → ran ≡ Ran.Ran tic → other < limits.players
        → is_over (end_in (session.survivors player).lockstep other)
        (session.survivors player).lockstep.ran ≡ false
        → get_or marks other (pos 0) ≡ marking (world_told limits settings (session.told player)) other)
        → RunsBy marks (session.survivors player).lockstep new.lockstep
        (λ limits m marks. on_run_but limits (has_given_up (session.survivors player)) m marks)
        (λ answer told. (ran ≡ answer) × (row ≡ told))
        → new.others ≡ (session.survivors player).others
        → AreRemaining marking limits settings (after_run session player row new) }
    ensures quit { (marking : Marking) (limits : Limits) (settings : Settings) (session : Session) (player : ℕ)
        (new : Surviving) (quit : Bool)
        → AreRemaining marking limits settings session → player < limits.players
        → Steps (session.survivors player).lockstep new.lockstep (λ limits me m. on_quit m)
        (λ answer. quit ≡ answer)
        → new.others ≡ (session.survivors player).others
        → AreRemaining marking limits settings (with_survivor session player new) }
    ensures gave_up { (marking : Marking) (limits : Limits) (settings : Settings) (session : Session)
        (here player : ℕ) (new : Surviving) (answer : GivenUp)
        → AreRemaining marking limits settings session → here < limits.players
        → GivesUp player (session.survivors here) new answer
        → AreRemaining marking limits settings (with_survivor session here new) }
    ensures relayed { (marking : Marking) (limits : Limits) (settings : Settings) (session : Session)
        (giver player to tic : ℕ) (command : TicCmd)
        → AreRemaining marking limits settings session → giver < limits.players → player < limits.players
        → to < limits.players → player ≢ to → MayRelay (session.survivors giver) to
        → command_told (session.survivors giver).lockstep player tic ≡ Some command
        → IsFair (packet_of_one player to tic command)
        → AreRemaining marking limits settings (after_relays session (packet_of_one player to tic command ∷ [])) }
    ensures told { (marking : Marking) (limits : Limits) (settings : Settings) (session : Session)
        (player to : ℕ) (report : Option Report)
        → AreRemaining marking limits settings session → player < limits.players
        → report ≡ report_for (session.survivors player) to
        → AreRemaining marking limits settings (after_report session player to report) }
    ensures reported { (marking : Marking) (limits : Limits) (settings : Settings) (session : Session)
        (which : ℕ) (given : Given) (new : Surviving) (answer : Reported)
        → AreRemaining marking limits settings session → slice_get session.reports which ≡ Some given
        → HearsReport given.from given.report (session.survivors given.to) new answer
        → AreRemaining marking limits settings (with_survivor session given.to new) }
    ensures kept { (marking : Marking) (limits : Limits) (settings : Settings) (session : Session) (player : ℕ)
        (new : Surviving)
        → AreRemaining marking limits settings session → new ≡ session.survivors player
        → AreRemaining marking limits settings (with_survivor session player new) }
{}
