//! Laws: which session plays which place of which game.

ghost use Rattle.std.specs.Prelude.{◌≡◌, Some};
ghost use Rattle.dn_session.specs.{declared.side.Begun.Begun, declared.side.Side.Side, Session.begun_in};
ghost use Rattle.dn_session.specs.Roster.{key_of, number_of_game, own_number, place_in, session_at, text_of_game, IsSide, Place};

/// A game that has begun for a session is the one that the session's place is in, and gives that place to the
/// session.
pub fn places_are_ones_own()
    ensures game { (side : Side) (begun : Begun) → begun_in side ≡ Some begun → (place : Place)
        × (place_in side ≡ Some place) × (begun.game ≡ number_of_game (key_of side) place.game)
        × (begun.terms ≡ place.game.terms) × (begun.me ≡ place.me) }
    ensures own { (side : Side) (place : Place) → IsSide side → place_in side ≡ Some place
        → session_at place ≡ own_number side }
{}

/// Two sessions whose games have one number, under one key, play one game: of one host's session, of the same
/// terms, with the same sessions in the same seats; but for two texts that have one code. And if both have one
/// place of it, their numbers are the same. So where no two sessions have drawn one number, it is one session.
pub fn one_link_a_place()
    ensures { (one two : Side) (a b : Place) → IsSide one → IsSide two → key_of one ≡ key_of two
        → place_in one ≡ Some a → place_in two ≡ Some b
        → (number_of_game (key_of one) a.game ≡ number_of_game (key_of two) b.game
        → text_of_game a.game ≡ text_of_game b.game)
        → number_of_game (key_of one) a.game ≡ number_of_game (key_of two) b.game
        → (a.game ≡ b.game) × (a.me ≡ b.me → own_number one ≡ own_number two) }
{}
