//! What holds of every game of links.

ghost use Rattle.std.specs.Prelude.{◌≡◌, ◌≤◌, ℕ, [], length, Result};
ghost use Rattle.dn_setup.specs.Settings.{Settings};
ghost use Rattle.dn_machine.specs.Limits.{IsWindow, Limits};
ghost use Rattle.dn_lockstep.specs.Opening.{IsGame};
ghost use Rattle.dn_seal.specs.declared.seal.Seal.{Seal};
ghost use Rattle.dn_link_game.specs.declared.calls.{LinkDone.LinkDone, LinkEvent.LinkEvent, LinkRefusal.LinkRefusal};
ghost use Rattle.dn_link_game.specs.{Applied.IsSteady, Does.DoesEvent, declared.game.LinkGame.LinkGame, declared.player.Player.Player, Games.{IsLinkGame, IsNew}, Headline.{HasPlayer, HaveAgreed}, Playing.{Seen, nothing_seen}};

use dn_link::{remaining_links_agree, remaining_links_start};
use dn_survivor::decisions_are_taken;
use dn_world::World;

/// The headline of games of links. Whatever the network did, as long as what a player opened was given in the
/// game: any two players of whom neither gave up the other ran the same row for each tic that both ran,
/// know the same ends, and have their worlds in the same state where both ran as many tics. The moves in the
/// rows are those of their makers' inputs, no ring overwrote an unread command, no consistency check failed,
/// and of any two demos one's commands are a prefix of the other's.
pub fn linked_games_agree<W: World>()
    ensures { (limits : Limits) (settings : Settings) (seal : Seal) (seen : ℕ → Seen) (g : LinkGame W)
        → IsLinkGame W.state W.physics limits settings seal seen g
        → HaveAgreed W.state W.physics limits settings (λ player. (seen player).inputs) (λ player. (seen player).rows)
        (λ player. (seen player).gone) g }
{
    remaining_links_agree();
}

/// No answer to an event of such a game tells of a failed check.
pub fn linked_answers_are_steady<W: World>()
    ensures { (limits : Limits) (settings : Settings) (seal : Seal) (seen later : ℕ → Seen) (old new : LinkGame W)
        (event : LinkEvent) (answer : Result LinkDone LinkRefusal)
        → IsLinkGame W.state W.physics limits settings seal seen old
        → IsLinkGame W.state W.physics limits settings seal later new
        → DoesEvent W.state W.physics event answer old new → IsSteady answer }
{
    remaining_links_agree();
    decisions_are_taken();
}

/// Players whose links are new, one for each number, of the same limits, settings and seal, and whose worlds
/// have begun by these settings, are those of a game in which nothing was given and nothing seen. Each premise of a
/// link is what `Link::new` says of one.
pub fn linked_game_starts<W: World>()
    ensures { (limits : Limits) (settings : Settings) (seal : Seal) (g : LinkGame W)
        → IsWindow limits → IsGame limits.players → limits.places ≤ 24
        → length g.players.items ≡ limits.players → g.given.items ≡ []
        → ((i : ℕ) (player : Player W) → HasPlayer g i player
        → IsNew W.state W.physics limits settings seal i player)
        → IsLinkGame W.state W.physics limits settings seal (λ player. nothing_seen) g }
{
    remaining_links_start();
}
