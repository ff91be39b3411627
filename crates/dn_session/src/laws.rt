//! Laws of lobbies, and of where players are looked for.

ghost use Rattle.std.specs.{Prelude.◌≡◌, Prelude.◌≢◌, Prelude.◌≤◌, Prelude.◌⊎◌, Prelude.ℕ, Prelude.[], Prelude.◌∷◌, Prelude.List, Prelude.Option, Prelude.None, Prelude.Some, Prelude.Result, Prelude.Ok, Prelude.Err, Prelude.position, Prelude.slice_index_or, Prelude.false, Prelude.filter, Prelude.length, Prelude.true, List.list_all};
ghost use Rattle.dn_seal.specs.{declared.seal.Seal.Seal, Envelope.Letter, Envelope.body_bytes as letter_bytes};
ghost use Rattle.dn_session.specs.declared.{greeting.Address.Address, greeting.Call.Call, greeting.GreetingFault.GreetingFault, greeting.Hint.Hint, greeting.Hinted.Hinted, greeting.Refused.Refused, greeting.Seating.Seating, places.Place.Place, seats.Held.Held, terms.Terms.Terms};
ghost use Rattle.dn_session.specs.declared.greeting.Refusal.TheVariants.{Cookie};
ghost use Rattle.dn_session.specs.declared.joiner.Stage.TheVariants.{Playing};
ghost use Rattle.dn_session.specs.declared.seats.Seat.TheVariants.{Absent, Taken};
ghost use Rattle.dn_session.specs.Places.{comes_from, is_this, probes_to, spot_at, Happening};
ghost use Rattle.dn_session.specs.Reading.{IsCallIn, IsHintedIn, IsRefusedIn, IsSeatingIn};
ghost use Rattle.dn_session.specs.Text.{body_bytes, call_rest, greeting_bytes, hinted_bytes, refused_rest, seating_rest, told_number, IsCall, IsHinted, IsRefused, IsSeating};
ghost use Rattle.dn_session.specs.Cookies.{game_of, game_text, is_good, is_recent, time_of};
ghost use Rattle.dn_session.specs.Hosting.{game, hint_for, hint_to, refused, seating, seating_to, HearsCall, IsLobby, IsReadReply, Lobby, WasHeard};
ghost use Rattle.dn_session.specs.{Joining.acts, Joining.game_in, Joining.is_answer, Joining.is_heard, Joining.is_own, Joining.on_refused, Joining.on_seating, Joining.on_time, Joining.Joining, Seats.is_of, Seats.is_ready, Session.HearsReply, Terms.IsTerms};

/// Bytes are read as one greeting of each sort, or for one fault.
pub fn one_greeting()
    ensures calls { (seal : Seal) (bytes : List ℕ) (a b : Result Call GreetingFault)
        → IsCallIn seal bytes a → IsCallIn seal bytes b → a ≡ b }
    ensures seatings { (seal : Seal) (bytes : List ℕ) (a b : Result Seating GreetingFault)
        → IsSeatingIn seal bytes a → IsSeatingIn seal bytes b → a ≡ b }
    ensures refusals { (seal : Seal) (bytes : List ℕ) (a b : Result Refused GreetingFault)
        → IsRefusedIn seal bytes a → IsRefusedIn seal bytes b → a ≡ b }
    ensures hints { (bytes : List ℕ) (a b : Result Hinted GreetingFault)
        → IsHintedIn bytes a → IsHintedIn bytes b → a ≡ b }
{}

/// What is written is read back.
pub fn greetings_are_read_back()
    ensures calls { (seal : Seal) (call : Call) → IsCall call
        → IsCallIn seal (greeting_bytes seal 1 (call_rest call)) (Ok call) }
    ensures seatings { (seal : Seal) (s : Seating) → IsSeating s
        → IsSeatingIn seal (greeting_bytes seal 2 (seating_rest s)) (Ok s) }
    ensures refusals { (seal : Seal) (refused : Refused) → IsRefused refused
        → IsRefusedIn seal (greeting_bytes seal 3 (refused_rest refused)) (Ok refused) }
    ensures hints { (hinted : Hinted) → IsHinted hinted → IsHintedIn (hinted_bytes hinted) (Ok hinted) }
{}

/// No tag of a greeting is over bytes over which a tag of an envelope is.
pub fn greetings_are_no_envelopes()
    ensures { (seal : Seal) (what : ℕ) (rest : List ℕ) (letter : Letter)
        → body_bytes seal what rest ≢ letter_bytes letter }
{}

/// A call without a good cookie of the address from which it came changes nothing, and its caller is told to
/// call again with another: in the lobby, and in the game where the caller does not play.
pub fn calls_without_a_cookie_change_nothing()
    ensures { (from : Address) (bytes : List ℕ) (call : Call) (now : ℕ) (old new : Lobby) (reply : Option (List ℕ))
        → IsCallIn old.seal bytes (Ok call)
        → (old.begun ≡ true → position (is_of call.number) old.seats ≡ None)
        → is_good old.random from now call.cookie ≡ false
        → HearsCall from bytes now old new reply → (new ≡ old) × (reply ≡ Some (refused from call now Cookie old)) }
{}

/// A game that has begun keeps its players: no bytes change anything any more, neither of its host nor of one who
/// joined, and nor does time.
pub fn begun_once()
    ensures host { (from : Address) (bytes : List ℕ) (now : ℕ) (old new : Lobby) (reply : Option (List ℕ))
        → old.begun ≡ true → HearsCall from bytes now old new reply → new ≡ old }
    ensures joiner { (from : Address) (bytes : List ℕ) (now : ℕ) (old new : Joining) → old.stage ≡ Playing
        → HearsReply (is_heard from old) bytes now old new → new ≡ old }
    ensures time { (now : ℕ) (j : Joining) → j.stage ≡ Playing → on_time now j ≡ (j, None) }
{
    joiners_act_when_due();
}

/// Who plays is told so as often as it calls, whatever its cookie.
pub fn players_are_told_as_often_as_they_call()
    ensures { (from : Address) (bytes : List ℕ) (call : Call) (now n : ℕ) (old new : Lobby) (reply : Option (List ℕ))
        → IsCallIn old.seal bytes (Ok call) → old.begun ≡ true → position (is_of call.number) old.seats ≡ Some n
        → HearsCall from bytes now old new reply → reply ≡ Some (seating from call now n old) }
{}

/// What a host sends can be read. A lobby stays one, whatever comes; the reply to a call is read by its caller
/// as just what it is told; and a hint as that hint.
pub fn replies_are_read_back()
    ensures kept { (from : Address) (bytes : List ℕ) (now : ℕ) (old new : Lobby) (reply : Option (List ℕ))
        → length from.bytes ≡ 32 → IsLobby old → HearsCall from bytes now old new reply → IsLobby new }
    ensures told { (from : Address) (bytes : List ℕ) (call : Call) (now : ℕ) (old new : Lobby) (reply : List ℕ)
        → length from.bytes ≡ 32 → IsLobby old → IsCallIn old.seal bytes (Ok call)
        → HearsCall from bytes now old new (Some reply) → IsReadReply from call now new reply }
    ensures hinted { (seal : Seal) (bytes : List ℕ) (fault : GreetingFault) (hint : Hint)
        → IsCallIn seal bytes (Err fault) → hint_for fault ≡ Some hint
        → IsHintedIn (hint_to bytes hint) (Ok (record { number = told_number bytes; hint = hint })) }
{}

/// When a seat was heard is the time of a good cookie, so at most now: of the one that came with this call, or
/// it was known before.
pub fn heard_is_the_time_of_a_cookie()
    ensures { (from : Address) (bytes : List ℕ) (now n : ℕ) (old new : Lobby) (reply : Option (List ℕ)) (held : Held)
        → HearsCall from bytes now old new reply → slice_index_or new.seats n Absent ≡ Taken held
        → WasHeard held.heard (slice_index_or old.seats n Absent)
        ⊎ ((call : Call) × IsCallIn old.seal bytes (Ok call) × (is_good old.random from now call.cookie ≡ true)
        × (held.heard ≡ time_of call.cookie) × (held.heard ≤ now)) }
{}

/// The address of who holds a seat moves only if nothing came from the old one for two seconds.
pub fn addresses_move_from_silence()
    ensures { (from : Address) (bytes : List ℕ) (now n : ℕ) (old new : Lobby) (reply : Option (List ℕ))
        (before after : Held) → HearsCall from bytes now old new reply
        → slice_index_or old.seats n Absent ≡ Taken before → slice_index_or new.seats n Absent ≡ Taken after
        → after.holder.number ≡ before.holder.number → after.holder.address ≢ before.holder.address
        → (is_recent now before.heard_here ≡ false) × (after.holder.address ≡ from) }
{}

/// For two seconds after a seating in the lobby a joiner heeds no refusal: nothing changes, so the seating for
/// the same call still counts.
pub fn seated_joiners_heed_no_refusal()
    ensures { (s : Seating) (refused : Refused) (came now : ℕ) (j : Joining)
        → is_answer s.number s.count j ≡ true → is_own s j ≡ true → s.begun ≡ false → is_recent now came ≡ true
        → on_refused refused now (on_seating s came j) ≡ on_seating s came j }
{}

/// A joiner that is asked before it is due changes nothing and calls nobody; from then on it does one or the
/// other.
pub fn joiners_act_when_due()
    ensures before { (now : ℕ) (j : Joining) → acts now j ≡ false → on_time now j ≡ (j, None) }
    ensures after { (now : ℕ) (j : Joining) → acts now j ≡ true → on_time now j ≢ (j, None) }
{}

/// At the call by which a game begins each of its players was heard in the last two seconds, and with a cookie
/// that is no older than `filled`, the newest with which a newcomer got its seat: each seat that the game has
/// is held, and its holder called with such a cookie.
pub fn no_ghost_plays()
    ensures { (from : Address) (bytes : List ℕ) (now : ℕ) (old new : Lobby) (reply : Option (List ℕ))
        → old.begun ≡ false → new.begun ≡ true → HearsCall from bytes now old new reply
        → list_all (is_ready now new.filled) new.seats ≡ true }
{}

/// Who has a seat is told of the host's own game: the number that follows from a seating is that of the host's.
pub fn players_are_told_one_game()
    ensures { (from : Address) (call : Call) (now n : ℕ) (l : Lobby)
        → game_in l.seal (seating_to from call now n l) ≡ game l }
{}

/// Two games of one number, under one key, are one game: of one host's session, of the same terms, with the
/// same sessions in the same seats; but for two texts that have one code.
pub fn one_game_a_number()
    ensures { (key host other : List ℕ) (terms others : Terms) (one two three four five six : List ℕ)
        → length host ≡ 16 → length other ≡ 16 → IsTerms terms → IsTerms others
        → length one ≡ 16 → length two ≡ 16 → length three ≡ 16
        → length four ≡ 16 → length five ≡ 16 → length six ≡ 16
        → (game_of key host terms (one ∷ two ∷ three ∷ []) ≡ game_of key other others (four ∷ five ∷ six ∷ [])
        → game_text host terms (one ∷ two ∷ three ∷ []) ≡ game_text other others (four ∷ five ∷ six ∷ []))
        → game_of key host terms (one ∷ two ∷ three ∷ []) ≡ game_of key other others (four ∷ five ∷ six ∷ [])
        → (host ≡ other) × (terms ≡ others) × (one ≡ four) × (two ≡ five) × (three ≡ six) }
{}

/// From any moment at which an address is neither the fallback nor the candidate of a player, no more probes go there
/// than datagrams of the player come from there, until the player has shown that it receives there.
pub fn probes_answer_datagrams()
    ensures { (at : Address) (place : Place) (happenings : List Happening)
        → is_this at (spot_at place.fallback) ≡ false → is_this at (spot_at place.candidate) ≡ false
        → probes_to at place happenings ≤ length (filter (comes_from at) happenings) }
{}
