//! Laws: what each call leaves as it was of a session, and what it has to send.

ghost use Rattle.std.specs.Prelude.{◌≡◌, ◌⊎◌, ℕ, ℤ, Bool, List, Option, None, Some, Result};
ghost use Rattle.dn_tic.specs.{declared.command.Move.Move, declared.input.Input.Input};
ghost use Rattle.dn_machine.specs.declared.answers.Ran.{Ran};
ghost use Rattle.dn_lockstep.specs.declared.config.NodeFault.{NodeFault};
ghost use Rattle.dn_session.specs.declared.greeting.Address.{Address};
ghost use Rattle.dn_session.specs.Session.{Begins, GivesPart, GivesUpPart, HearsAny, Kicks, Meeting, PassesTo, QuitsPart, RunsPart, Sends, SendsPart};
ghost use Rattle.dn_session.specs.Sessions.{Keeps, KeepsOut};

use crate::laws::begun_once;

/// Whatever is called on a session, it keeps its secret and its key, and once its game has begun that game and its
/// place in it. What it has to send beside what its link makes are greetings, and what came: a reply, a call, and what
/// it passes on. Only [`Session::begin`](crate::Session::begin) gives it a part.
pub fn sessions_keep()
    ensures hears { (from : Address) (bytes : List ℕ) (now : ℕ) (old new : Meeting) → HearsAny from bytes now old new
        → KeepsOut (Some bytes) old new }
    ensures begins { (now : ℕ) (old new : Meeting) (result : Result Bool NodeFault) → Begins now old new result
        → Keeps None old new }
    ensures passes { (now : ℕ) (old new : Meeting) → PassesTo now old new → KeepsOut None old new }
    ensures gives { (now : ℕ) (input : Input) (given : Bool) (old new : Meeting)
        → GivesPart now input old.part new.part given → new ≡ record old { part = new.part } → KeepsOut None old new }
    ensures runs { (marks : List ℤ) (ran : Ran) (row : Option (List (Option Move))) (old new : Meeting)
        → RunsPart marks old.part new.part ran row → new ≡ record old { part = new.part } → KeepsOut None old new }
    ensures quits { (now : ℕ) (old new : Meeting) → QuitsPart now old.part new.part
        → new ≡ record old { part = new.part } → KeepsOut None old new }
    ensures gives_up { (player now : ℕ) (gave : Bool) (old new : Meeting)
        → GivesUpPart player now old.part new.part gave → new ≡ record old { part = new.part } → KeepsOut None old new }
    ensures kicks { (seat : ℕ) (old new : Meeting) → Kicks seat old new → KeepsOut None old new }
    ensures sends { (old new : Meeting) (sent : Option (Address × List ℕ)) → Sends old new sent
        → KeepsOut None old new × (new.lobby ≡ old.lobby) }
    // If anything is sent, it is the reply; or the call, where there is no reply; or, where there is neither,
    // what the part sends.
    ensures sent { (old new : Meeting) (sent : Option (Address × List ℕ)) → Sends old new sent
        → (sent ≡ old.reply) ⊎ ((old.reply ≡ None) × ((sent ≡ old.call)
        ⊎ ((old.call ≡ None) × SendsPart old.part new.part sent))) }
{
    begun_once();
}
