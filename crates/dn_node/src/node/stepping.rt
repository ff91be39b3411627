//! What a node does.

ghost use Rattle.std.specs.{Prelude.◌≡◌, Prelude.◌≢◌, Prelude.◌<◌, Prelude.◌≤◌, Prelude.ℕ, Prelude.◌+◌, Prelude.length, Prelude.pos, Prelude.false, Prelude.get_or, Prelude.Some, Prelude.None};
ghost use Rattle.std.specs.{Prelude.IfSome, Prelude.is_some, Option.option_map};
ghost use Rattle.dn_tic.specs.{declared.input.Input.Input as AnyInput, declared.input.Input.TheVariants.Pressed, declared.input.Input.TheVariants.Given};
ghost use Rattle.dn_setup.specs.Settings.{Settings, start_of};
ghost use Rattle.dn_machine.specs.declared.answers.Heard.TheVariants.{Started};
ghost use Rattle.dn_machine.specs.declared.answers.Made.TheVariants as Made;
ghost use Rattle.dn_machine.specs.declared.answers.Ran.TheVariants as Ran;
ghost use Rattle.dn_lockstep.specs.{Sent.IsFair, Sent.sent_to, Sent.aim_of, Sent.bytes_of, Rows.seats_of};

use super::Node;
use arrayvec::ArrayVec;
use dn_lockstep::Aim;
use dn_machine::{Heard, Made, Ran};
use dn_tic::{Command, Keys};
use dn_world::World;

impl<W: World> Node<W> {
    ghost use Rattle.dn_machine.specs.{Sending.on_build, Game.on_own_run, Running.on_quit, Running.tic_limit};
    ghost use Rattle.dn_node.specs.{Contents.contents, Contents.locked, Steps.Reaches, Steps.Gives, Steps.IsSentTo, Steps.Steps, Steps.Tells, Steps.HearsAny, Steps.HearsNear};
    ghost use Rattle.dn_lockstep.specs.{Giving.gives, Giving.IsSilent, Giving.aim_in, Giving.size_in, Told.makes, Told.can_make, Hearing.Spares};

    /// Whether [`Node::build`] and [`Node::give`] would make a command now.
    #[tactic(auto, using(crate::proofs::Stepping::tells))]
    pub fn can_build(&self) -> bool
        ensures value { result ≡ can_make (locked (contents self.now)) }
        ensures told { Tells W.state W.physics (contents self.now)
            (λ rules me m. (input : AnyInput) → result ≡ makes rules.limits me m input) }
    {
        self.lockstep.can_build()
    }

    /// Builds the command of these keys for the next tic. A node that builds none stays as it is.
    pub fn build(&mut self, keys: Keys) -> Made
        ensures step { Steps W.state W.physics (contents self.old) (contents self.new)
            (λ rules me m. on_build rules.limits me m (Pressed keys)) (λ made. result ≡ made) }
        ensures full { result ≡ Made.Full → contents self.new ≡ contents self.old }
        ensures idle { result ≡ Made.NotPlaying → contents self.new ≡ contents self.old }
        ensures world { (contents self.new).world ≡ (contents self.old).world }
    {
        self.lockstep.build(keys)
    }

    /// Takes the given command for the next tic, where [`Node::build`] would build one. A forward of -128
    /// counts as -127. A node that takes none stays as it is.
    pub fn give(&mut self, command: Command) -> Made
        ensures step { Steps W.state W.physics (contents self.old) (contents self.new)
            (λ rules me m. on_build rules.limits me m (Given command)) (λ made. result ≡ made) }
        ensures full { result ≡ Made.Full → contents self.new ≡ contents self.old }
        ensures idle { result ≡ Made.NotPlaying → contents self.new ≡ contents self.old }
        ensures world { (contents self.new).world ≡ (contents self.old).world }
    {
        self.lockstep.give(command)
    }

    /// The exact numbers of the packet that `packet` would give now.
    #[tactic(auto, using(crate::proofs::Stepping::tells))]
    pub fn aim(&self, to: u8) -> Option<Aim>
        ensures told { Tells W.state W.physics (contents self.now)
            (λ rules me m. result ≡ option_map aim_of (sent_to to rules.limits me m).1) }
        ensures reach { IfSome result (λ aim. Reaches (contents self.now) aim
            × Gives (contents self.now) to) }
    {
        self.lockstep.aim(to)
    }

    /// Writes the next packet to a peer to the front of a room, and answers its exact numbers and how many
    /// bytes it has; None where there is none.
    pub fn packet_with_aim(&mut self, to: u8, room: &mut [u8]) -> Option<(Aim, usize)>
        requires { 104 ≤ length room.old }
        ensures sent { IsSentTo W.state W.physics to (contents self.old) (contents self.new) room.old room.new
            (size_in result) }
        ensures aimed { Tells W.state W.physics (contents self.old)
            (λ rules me m. aim_in result ≡ option_map aim_of (sent_to to rules.limits me m).1) }
        ensures known { is_some result ≡ gives (locked (contents self.old)) to }
        ensures peer { IfSome result (λ given. Gives (contents self.old) to) }
        ensures fair { Tells W.state W.physics (contents self.old)
            (λ rules me m. IfSome (sent_to to rules.limits me m).1 IsFair) }
        ensures silent { IsSilent to (locked (contents self.old)) (locked (contents self.new)) room.old room.new
            (size_in result) }
        ensures world { (contents self.new).world ≡ (contents self.old).world }
    {
        self.lockstep.packet_with_aim(to, room)
    }

    /// The next packet to a peer; None for the node itself, for a number that is no player's, and where
    /// the node has nothing to give. A node that has played and ended gives one whenever it is asked.
    pub fn packet(&mut self, to: u8) -> Option<ArrayVec<u8, 104>>
        ensures step { Steps W.state W.physics (contents self.old) (contents self.new)
            (λ rules me m. sent_to to rules.limits me m)
            (λ flight. option_map (λ bytes. bytes.items) result ≡ option_map bytes_of flight) }
        ensures fair { Tells W.state W.physics (contents self.old)
            (λ rules me m. IfSome (sent_to to rules.limits me m).1 IsFair) }
        ensures idle { result ≡ None → contents self.new ≡ contents self.old }
        ensures world { (contents self.new).world ≡ (contents self.old).world }
    {
        self.lockstep.packet(to)
    }

    /// Hears a datagram that came from player `from`. A datagram that is dropped changes nothing.
    pub fn receive(&mut self, from: u8, bytes: &[u8]) -> Heard
        ensures any { HearsAny W.state W.physics from bytes.now (contents self.old) (contents self.new) result }
        ensures near { HearsNear W.state W.physics from bytes.now (contents self.old) (contents self.new) result }
        ensures dropped { Spares (contents self.old) (contents self.new) result }
        ensures world { result ≢ Started → (contents self.new).world ≡ (contents self.old).world }
    {
        let heard = self.lockstep.receive(from, bytes);
        if let Heard::Started = heard {
            self.begin();
        }
        heard
    }

    /// Begins its world, as its settings say.
    fn begin(&mut self)
        ensures rest { locked (contents self.new) ≡ locked (contents self.old) }
        ensures begun { (settings : Settings) → (contents self.old).settings ≡ Some settings
            → W.state (contents self.new).world
            ≡ W.physics.begin (start_of settings) (seats_of (contents self.old).players) }
    {
        // who has started has settings
        if let Some(settings) = self.lockstep.settings() {
            self.world.begin(&settings.start(), self.lockstep.present());
        }
    }

    /// Runs the next tic (`d_net.c`, TryRunTics; `g_game.c`, G_Ticker), where no mark is off and the command
    /// of every player who has not left by then is there. A node that waits stays as it is.
    pub fn run(&mut self) -> Ran
        ensures step { Steps W.state W.physics (contents self.old) (contents self.new)
            (λ rules me m. on_own_run rules m) (λ ran. result ≡ ran) }
        ensures further { (tic : ℕ) → result ≡ Ran.Ran tic
            → (contents self.new).ran ≡ (contents self.old).ran + 1 }
        ensures most { (contents self.new).ran ≤ tic_limit }
        ensures waits { (player : ℕ) → result ≡ Ran.Waiting player → contents self.new ≡ contents self.old }
        ensures idle { result ≡ Ran.NotPlaying → contents self.new ≡ contents self.old }
        ensures world { ((tic : ℕ) → result ≢ Ran.Ran tic)
            → (contents self.new).world ≡ (contents self.old).world }
    {
        let marks = self.marks();
        let (ran, row) = self.lockstep.run(&marks);
        if let Some(row) = row {
            self.world.step(&row);
        }
        ran
    }

    /// Each player's mark in its world.
    fn marks(&self) -> [i16; 4]
        ensures { (player : ℕ) → player < 4
            → get_or result player (pos 0) ≡ W.physics.mark (W.state (contents self.now).world) player }
    {
        [
            self.world.mark(0),
            self.world.mark(1),
            self.world.mark(2),
            self.world.mark(3),
        ]
    }

    /// Ends the node, and answers whether it had not ended.
    pub fn quit(&mut self) -> bool
        ensures step { Steps W.state W.physics (contents self.old) (contents self.new)
            (λ rules me m. on_quit m) (λ quit. result ≡ quit) }
        ensures idle { result ≡ false → contents self.new ≡ contents self.old }
        ensures world { (contents self.new).world ≡ (contents self.old).world }
    {
        self.lockstep.quit()
    }
}
