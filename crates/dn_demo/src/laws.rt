//! What holds of all demos.

ghost use Rattle.std.specs.{Prelude.◌≡◌, Prelude.◌<◌, Prelude.ℕ, Prelude.Bool, Prelude.true, Prelude.List, Prelude.All, Prelude.Option, Prelude.Result, Prelude.Ok, List.concat};
ghost use Rattle.dn_tic.specs.declared.command.Move.{Move};
ghost use Rattle.dn_setup.specs.declared.settings.Start.{Start};
ghost use Rattle.dn_demo.specs.{Layout.vanilla, Layout.long_tics, Layout.spell, Layout.tell, Text.AreWritable, Text.AllMoves, Text.IsMove, Text.IsWhole, Text.demo_text, Reading.Recording};
ghost use Rattle.dn_demo.specs.{Reading.IsReadAs, Reading.HasRows, Reading.written_demo, Reading.state_after, Recorded.Recorded, Recorded.IsUpgraded, Feeding.Feeding, Feeding.Shows, Feeding.AreListed};
ghost use Rattle.dn_demo.specs.{Feeding.IsFedAs, Feeding.PiecesEndAs, Feeding.IsSameEnd, declared.fed.Fed.Fed, declared.fed.FeedFault.FeedFault};

use dn_world::World;

/// A move is read back from its bytes: as version 109 if its turn is a multiple of 256, and always as version
/// 111.
pub fn spelt_moves_are_told()
    ensures vanilla { (m : Move) → IsMove m → IsWhole m → tell vanilla (spell vanilla m) ≡ m }
    ensures long_tics { (m : Move) → IsMove m → tell long_tics (spell long_tics m) ≡ m }
{}

/// The closed text of rows is read as these rows, with nothing cut and nothing after the marker; as
/// version 109 if their turns are multiples of 256.
#[tactic(auto, using(crate::proofs::ReadBack::vanilla_read_back, crate::proofs::ReadBack::long_read_back))]
pub fn written_rows_are_read()
    ensures vanilla { (start : Start) (view : ℕ) (present : List Bool) (rows : List (List (Option Move)))
        → AreWritable present rows → AllMoves IsWhole rows
        → IsReadAs (demo_text vanilla start view present rows true)
        (Ok (written_demo vanilla start view present rows)) }
    ensures long_tics { (start : Start) (view : ℕ) (present : List Bool) (rows : List (List (Option Move)))
        → AreWritable present rows
        → IsReadAs (demo_text long_tics start view present rows true)
        (Ok (written_demo long_tics start view present rows)) }
{}

/// A demo of either version that is read and upgraded is read again as version 111 with the same start, view,
/// players and rows, nothing cut and nothing after. So it leads any world to the same state.
pub fn upgraded_demos_play_the_same<W: World>()
    ensures read { (bytes : List ℕ) (demo : Recording) (limit : ℕ) (recorder : Recorded)
        → All (λ byte. byte < 256) bytes
        → IsReadAs bytes (Ok demo) → IsUpgraded demo limit (Ok recorder)
        → IsReadAs recorder.bytes (Ok (written_demo long_tics demo.start demo.view demo.present demo.rows)) }
    ensures played { (bytes : List ℕ) (demo upgraded : Recording) (limit : ℕ) (recorder : Recorded)
        → All (λ byte. byte < 256) bytes
        → IsReadAs bytes (Ok demo) → IsUpgraded demo limit (Ok recorder)
        → IsReadAs recorder.bytes (Ok upgraded)
        → state_after W.physics upgraded ≡ state_after W.physics demo }
{}

/// Pieces end as their join is read, so pieces with the same join end the same.
pub fn pieces_end_as_their_join<W: World>()
    ensures read { (pieces : List (List ℕ)) (result : Result (Fed W) FeedFault)
        → PiecesEndAs W.state W.physics pieces result → IsFedAs W.state W.physics (concat pieces) result }
    ensures same { (pieces others : List (List ℕ)) (one other : Result (Fed W) FeedFault)
        → concat pieces ≡ concat others
        → PiecesEndAs W.state W.physics pieces one → PiecesEndAs W.state W.physics others other
        → IsSameEnd W.state W.physics one other }
{}

/// The rows that a feed returns are those that its bytes have. Of bytes that are read as a demo they are the
/// demo's rows, and no others.
pub fn told_rows_are_read<W: World>()
    ensures told { (bytes : List ℕ) (feed : Feeding W) (rows : List (List (Option Move)))
        → Shows W.state W.physics bytes feed → AreListed bytes feed.tics rows → HasRows bytes rows }
    ensures read { (bytes : List ℕ) (demo : Recording) → IsReadAs bytes (Ok demo) → HasRows bytes demo.rows }
    ensures only { (bytes : List ℕ) (demo : Recording) (rows : List (List (Option Move)))
        → IsReadAs bytes (Ok demo) → HasRows bytes rows → rows ≡ demo.rows }
{}
