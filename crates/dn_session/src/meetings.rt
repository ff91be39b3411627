//! Laws: the sessions of one game have links of one game, whatever runs.

ghost use Rattle.std.specs.Prelude.{◌≡◌, ◌<◌, ◌⊎◌, ℕ, ℤ, Bool, false, List, Option, Some, None, IfSome, Result};
ghost use Rattle.dn_tic.specs.{declared.command.Move.Move, declared.input.Input.Input};
ghost use Rattle.dn_machine.specs.declared.answers.Ran.{Ran};
ghost use Rattle.dn_lockstep.specs.{Marking.Marking, declared.config.NodeFault.NodeFault};
ghost use Rattle.dn_survivor.specs.OneGame.{started_session, Session};
ghost use Rattle.dn_link.specs.{Linked.surviving_of, Linking.linked, RemainingLinks.IsGenuineIn, RemainingLinks.WasSealedIn, declared.link.Link.Link};
ghost use Rattle.dn_session.specs.declared.{greeting.Address.Address, side.Begun.Begun, side.Side.Side};
ghost use Rattle.dn_session.specs.{Parts.limits_of, Parts.links_of, Parts.AreMarksOf, Playing.Playing, Reading.is_greeting, Roster.own_number, Roster.IsSide, Text.game_seal};
ghost use Rattle.dn_session.specs.Session.{begins_now, begun_in, link_in, passing_in, Begins, GivesPart, GivesUpPart, HearsAny, IsLinkOf, IsPartOf, Kicks, Meeting, PassesTo, QuitsPart, RunsPart, Sends};
ghost use Rattle.dn_session.specs.Sessions.{AreKeptBy, AreSessions, IsPartFor, PlaysWith, StaySessions};

use dn_link::{
    links_have_windows, remaining_bytes_are_genuine, remaining_links_go_on, remaining_links_start,
};

/// Two sessions that play a game in one place have one number: where no two have drawn one, they are one session.
/// The part that a session makes has the link of its place. And the sessions of a game, as long as each part has
/// such a link, are those of one game.
pub fn sessions_play()
    ensures place { (one first second : Side) (b here there : Begun) (player : ℕ) → IsSide one → begun_in one ≡ Some b
        → PlaysWith one b player first here → PlaysWith one b player second there
        → own_number first ≡ own_number second }
    ensures made { (secret : Option (List ℕ)) (one side : Side) (b here : Begun) (player now : ℕ) (part : Playing)
        → IsSide one → begun_in one ≡ Some b → PlaysWith one b player side here → IsPartOf secret here now part
        → IsLinkOf secret (record b { me = player }) part.link }
    ensures opens { (marking : Marking) (secret : Option (List ℕ)) (one : Side) (b : Begun) (meetings : ℕ → Meeting)
        (parts : ℕ → Playing) → IsSide one → begun_in one ≡ Some b
        → ((player : ℕ) → player < b.terms.players → IsPartFor secret b player (meetings player).part (parts player)
        × IsLinkOf secret (record b { me = player }) (parts player).link)
        → AreSessions marking secret b
        (started_session b.terms.players b.terms.settings (λ p. surviving_of (links_of parts p))) meetings }
{
    remaining_links_start();
    links_have_windows();
}

/// And so they stay after each call on one of them, as long as what a part opens was sealed in this game before. What
/// a part sends was sealed in this game, or it is the bytes of another player that it passes on as they came. A
/// session that begins plays this game, in this place. At a run the caller hands in the marks of a world that moved
/// on by the rows that it was told. Whom a part gives up, and when, is not asked. What else a session does changes no
/// part.
pub fn sessions_stay()
    ensures begins { (marking : Marking) (secret : Option (List ℕ)) (b : Begun) (session : Session)
        (meetings : ℕ → Meeting) (player : ℕ) (new : Meeting) (one : Side) (now : ℕ) (result : Result Bool NodeFault)
        → AreSessions marking secret b session meetings → player < b.terms.players
        → IsSide one → begun_in one ≡ Some b → (meetings player).secret ≡ secret
        → ((here : Begun) → begins_now (meetings player) ≡ Some here
        → PlaysWith one b player (meetings player).lobby here) → Begins now (meetings player) new result
        → StaySessions marking secret b session meetings player new None }
    ensures hears { (marking : Marking) (secret : Option (List ℕ)) (b : Begun) (session : Session)
        (meetings : ℕ → Meeting) (player now : ℕ) (new : Meeting) (from : Address) (bytes : List ℕ)
        → AreSessions marking secret b session meetings → player < b.terms.players
        → (is_greeting bytes ≡ false → IsGenuineIn (game_seal secret b.game) session player bytes)
        → HearsAny from bytes now (meetings player) new
        → StaySessions marking secret b session meetings player new None }
    ensures runs { (marking : Marking) (secret : Option (List ℕ)) (b : Begun) (session : Session)
        (meetings : ℕ → Meeting) (player : ℕ) (new : Meeting) (marks : List ℤ) (ran : Ran) (row : Option (List (Option Move)))
        → AreSessions marking secret b session meetings → player < b.terms.players
        → ((link : Link) → link_in (meetings player).part ≡ Some link
        → AreMarksOf marking (limits_of b.terms) b.terms.settings session player (linked link).node marks ran)
        → RunsPart marks (meetings player).part new.part ran row
        → StaySessions marking secret b session meetings player new row }
    ensures sends { (marking : Marking) (secret : Option (List ℕ)) (b : Begun) (session : Session)
        (meetings : ℕ → Meeting) (player : ℕ) (new : Meeting) (sent : Option (Address × List ℕ))
        → AreSessions marking secret b session meetings → player < b.terms.players
        → Sends (meetings player) new sent → (on : StaySessions marking secret b session meetings player new None)
        × ((meetings player).reply ≡ None → (meetings player).call ≡ None
        → (sent ≡ passing_in (meetings player).part)
        ⊎ IfSome sent (λ (s : Address × List ℕ). WasSealedIn (game_seal secret b.game) on.later s.1)) }
    ensures gives { (now : ℕ) (input : Input) (given : Bool)
        → AreKeptBy (λ old new. GivesPart now input old.part new.part given) }
    ensures passes { (now : ℕ) → AreKeptBy (PassesTo now) }
    ensures quits { (now : ℕ) → AreKeptBy (λ old new. QuitsPart now old.part new.part) }
    ensures gives_up { (player now : ℕ) (gave : Bool)
        → AreKeptBy (λ old new. GivesUpPart player now old.part new.part gave) }
    ensures kicks { (seat : ℕ) → AreKeptBy (Kicks seat) }
    ensures stays { AreKeptBy (λ old new. new.part ≡ old.part) }
{
    remaining_links_go_on();
    remaining_bytes_are_genuine();
}
