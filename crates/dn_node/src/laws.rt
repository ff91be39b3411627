//! What holds of every node that has ended.

ghost use Rattle.std.specs.Prelude.{◌≡◌, ℕ, true, length, Some, Ok, fold};
ghost use Rattle.dn_setup.specs.Settings.{Settings, start_of};
ghost use Rattle.dn_demo.specs.{Layout.long_tics, Reading.IsReadAs, Reading.written_demo, Reading.state_after};
ghost use Rattle.dn_machine.specs.{declared.answers.Cause.Cause, declared.answers.Phase.TheVariants.Ended, Limits.Limits, Worlds.rules_within, Node.demo_rows};
ghost use Rattle.dn_machine.specs.Node as machine;
ghost use Rattle.dn_node.specs.Contents.{Contents, Represents};
ghost use Rattle.dn_lockstep.specs.Rows.{seats_of};

use dn_world::World;

/// The demo of a node that has played and ended is read back to what it was played from, with its own
/// number as view, to its players and to the rows that it ran before the first that lacks a player. All
/// rows that it ran, from the beginning on, lead to its world; and so does the demo, where no row lacks one.
pub fn ended_demos_replay<W: World>()
    ensures read { (limits : Limits) (me : ℕ) (n : Contents W) (m : machine.Node)
        (settings : Settings) (cause : Cause)
        → Represents W.state (rules_within W.physics limits) me n m
        → m.played ≡ true → m.phase ≡ Ended cause → m.settings ≡ Some settings
        → IsReadAs n.demo.bytes (Ok (written_demo long_tics (start_of settings) me (seats_of limits.players)
        (demo_rows limits.players m))) }
    ensures world { (limits : Limits) (me : ℕ) (n : Contents W) (m : machine.Node)
        (settings : Settings)
        → Represents W.state (rules_within W.physics limits) me n m
        → m.played ≡ true → m.settings ≡ Some settings
        → W.state n.world ≡ fold W.physics.step (W.physics.begin (start_of settings) (seats_of limits.players))
        m.rows }
    ensures played { (limits : Limits) (me : ℕ) (n : Contents W) (m : machine.Node)
        (settings : Settings)
        → Represents W.state (rules_within W.physics limits) me n m
        → m.played ≡ true → m.settings ≡ Some settings
        → n.ran ≡ length (demo_rows limits.players m)
        → W.state n.world ≡ state_after W.physics (written_demo long_tics (start_of settings) me
        (seats_of limits.players) (demo_rows limits.players m)) }
{}
