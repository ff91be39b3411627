//! What a node writes into its demo.

ghost use Rattle.std.specs.Prelude.{◌≡◌, ◌≢◌, ◌≤◌, ◌+◌, ◌*◌, true, false, length, if◌then◌else◌};
ghost use Rattle.dn_demo.specs.{Layout.long_tics, Layout.command_size, Places.seats_in, Recorded.AddsRow, Recorded.Closes, Text.IsRow, Text.player_count, declared.recorder.Stage.TheVariants.Blank};
ghost use Rattle.dn_demo.specs.{declared.recorder.Stage.TheVariants.Open, declared.recorder.Stage.TheVariants.Closed};

use dn_demo::Recorder;
use dn_tic::Move;

/// Closes a demo that is open.
pub(crate) fn close(demo: &mut Recorder)
    requires { demo.old.stage ≢ Blank }
    ensures open { demo.old.stage ≡ Open → Closes demo.old.bytes demo.new.bytes }
    ensures closed { demo.old.stage ≡ Closed → demo.new.bytes ≡ demo.old.bytes }
    ensures stage { demo.new.stage ≡ Closed }
    ensures limit { demo.new.limit ≡ demo.old.limit }
{
    if !demo.closed() {
        demo.close();
    }
}

/// Writes a row that is whole, for which there is room, and closes the demo before any other.
#[inline(always)]
pub(crate) fn write(demo: &mut Recorder, row: &[Option<Move>; 4], whole: bool)
    requires begun { demo.old.stage ≢ Blank }
    requires open { whole ≡ true → demo.old.stage ≡ Open }
    requires row { whole ≡ true → IsRow (seats_in demo.old.bytes) row.now }
    requires room { whole ≡ true
        → length demo.old.bytes + command_size long_tics * player_count (seats_in demo.old.bytes) + 1
        ≤ demo.old.limit }
    ensures limit { demo.new.limit ≡ demo.old.limit }
    ensures stage { demo.new.stage ≡ (if whole then Open else Closed) }
    ensures text { whole ≡ true → AddsRow demo.old.bytes demo.new.bytes row.now }
    ensures size { whole ≡ true
        → length demo.new.bytes ≡ length demo.old.bytes + command_size long_tics * player_count (seats_in
        demo.old.bytes) }
    ensures seats { whole ≡ true → seats_in demo.new.bytes ≡ seats_in demo.old.bytes }
    ensures closes { whole ≡ false → demo.old.stage ≡ Open → Closes demo.old.bytes demo.new.bytes }
    ensures closed { whole ≡ false → demo.old.stage ≡ Closed → demo.new.bytes ≡ demo.old.bytes }
{
    if whole {
        demo.add_row(row);
    } else {
        close(demo);
    }
}
