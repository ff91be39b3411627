//! A packet that was opened comes to a lockstep of a game.

ghost use Rattle.dn_lockstep.specs.Contents.{contents};
ghost use Rattle.dn_open.specs.Arrivals.{HearsOpened, SparesSealed};
ghost use Rattle.dn_engine_tests.specs.Letters.{OpensOn, AnswersAs};

use dn_lockstep::Lockstep;
use dn_open::{Arrived, hear, letters_are_answered, letters_keep_one_game};
use dn_seal::Opened;

/// Hears what was opened as a packet to this player.
pub fn hear_letter(lockstep: &mut Lockstep, opened: &Opened) -> Arrived
    ensures one_game { OpensOn opened.now (contents lockstep.old) (contents lockstep.new) }
    ensures answered { AnswersAs opened.now (contents lockstep.old) result }
    ensures step { HearsOpened opened.now (contents lockstep.old) (contents lockstep.new) result }
    ensures dropped { SparesSealed (contents lockstep.old) (contents lockstep.new) result }
{
    letters_keep_one_game();
    letters_are_answered();
    hear(lockstep, opened)
}
