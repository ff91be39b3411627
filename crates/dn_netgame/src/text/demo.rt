//! The lines of a demo and of its rows.

ghost use Rattle.std.specs.{Prelude.◌≡◌, Prelude.◌++◌, Prelude.[], Prelude.◌∷◌, Prelude.None, Prelude.IsOk, Prelude.OnOk, Prelude.codes, Prelude.IfOk, String.string_bytes};
ghost use Rattle.dn_netgame.specs.Texts.{move_line, step_line, row_lines, choice_fields, rule_fields, header_fields, size_line, player_line, seat_line, players_present, fed_lines};
ghost use Rattle.dn_world.specs.Plane.{spot_at};
ghost use Rattle.dn_measure.specs.Fields.{labelled};

use dn_demo::Fed;
use dn_measure::{push_fields, push_line};
use dn_setup::Start;
use dn_tic::Move;
use dn_world::{Walk, World};
use std::alloc::{AllocError, Global};

#[tactic(auto, unfolding(crate::specs::Texts::move_line))]
fn push_move(text: &mut String, tic: u64, player: u8, step: Move) -> Result<(), AllocError>
    ensures { OnOk result (string_bytes text.new ≡ string_bytes text.old ++ move_line tic player step) }
{
    let fields = [
        ("tic ", tic as i128),
        (" player ", player as i128),
        (" forward ", step.forward as i128),
        (" side ", step.side as i128),
        (" turn ", step.turn as i128),
        (" buttons ", step.buttons as i128),
    ];
    push_line(text, &fields)
}

/// The line of who has a move, and nothing for another.
fn push_step(text: &mut String, tic: u64, player: u8, step: Option<Move>) -> Result<(), AllocError>
    ensures line { OnOk result (string_bytes text.new ≡ string_bytes text.old ++ step_line tic player step) }
    ensures empty { step ≡ None → IsOk result }
{
    match step {
        Some(step) => push_move(text, tic, player, step),
        None => Ok(()),
    }
}

/// Appends the lines of a demo's row, which is that of `tic`: one for each player who has a move, in the order
/// of their numbers; a row in which nobody moves needs no memory. Err where memory is refused: what the text
/// then holds is not said, and the caller is to throw it away.
pub fn push_row(text: &mut String, tic: u64, row: [Option<Move>; 4]) -> Result<(), AllocError>
    ensures lines { OnOk result (string_bytes text.new ≡ string_bytes text.old ++ row_lines tic 0 row) }
    ensures empty { row ≡ None ∷ None ∷ None ∷ None ∷ [] → IsOk result }
{
    let [a, b, c, d] = row;
    push_step(text, tic, 0, a)?;
    push_step(text, tic, 1, b)?;
    push_step(text, tic, 2, c)?;
    push_step(text, tic, 3, d)
}

/// The numbers of the players who are present.
fn push_present(text: &mut String, present: [bool; 4]) -> Result<(), AllocError>
    ensures { OnOk result (string_bytes text.new
        ≡ string_bytes text.old ++ labelled (players_present 0 present)) }
{
    for (player, taken) in present.iter().enumerate() {
        if *taken {
            push_fields(text, &[(" ", player as i128)])?;
        }
    }
    Ok(())
}

/// The end of the first line, which names the players who are present.
fn push_players(text: &mut String, present: [bool; 4]) -> Result<(), AllocError>
    ensures { OnOk result (string_bytes text.new
        ≡ string_bytes text.old ++ (codes " players"
        ++ (labelled (players_present 0 present) ++ codes "\n"))) }
{
    text.push_str(" players")?;
    push_present(text, present)?;
    text.push_str("\n")
}

#[tactic(auto, unfolding(crate::specs::Texts::choice_fields))]
fn push_choice(text: &mut String, version: u8, start: &Start) -> Result<(), AllocError>
    ensures { OnOk result (string_bytes text.new ≡ string_bytes text.old ++ choice_fields version start.now) }
{
    let fields = [
        ("version ", version as i128),
        (" skill ", start.skill as i128),
        (" episode ", start.episode as i128),
        (" map ", start.map as i128),
    ];
    push_fields(text, &fields)
}

#[tactic(auto, unfolding(crate::specs::Texts::rule_fields))]
fn push_rules(text: &mut String, start: &Start, view: u8) -> Result<(), AllocError>
    ensures { OnOk result (string_bytes text.new ≡ string_bytes text.old ++ rule_fields start.now view) }
{
    let fields = [
        (" deathmatch ", start.deathmatch as i128),
        (" respawn ", start.respawn as i128),
        (" fast ", start.fast as i128),
        (" nomonsters ", start.no_monsters as i128),
        (" view ", view as i128),
    ];
    push_fields(text, &fields)
}

#[tactic(auto, unfolding(crate::specs::Texts::header_fields))]
fn push_header(text: &mut String, version: u8, start: &Start, view: u8) -> Result<(), AllocError>
    ensures { OnOk result (string_bytes text.new ≡ string_bytes text.old ++ header_fields version start.now
        view) }
{
    push_choice(text, version, start)?;
    push_rules(text, start, view)
}

#[tactic(auto, unfolding(crate::specs::Texts::size_line))]
fn push_size(text: &mut String, tics: u64, cut: u64, after: u64) -> Result<(), AllocError>
    ensures { OnOk result (string_bytes text.new ≡ string_bytes text.old ++ size_line tics cut after) }
{
    let fields = [
        ("tics ", tics as i128),
        (" cut ", cut as i128),
        (" after ", after as i128),
    ];
    push_line(text, &fields)
}

#[tactic(auto, unfolding(crate::specs::Texts::player_line))]
fn push_player(
    text: &mut String,
    player: u8,
    x: i32,
    y: i32,
    angle: u16,
    mark: i16,
) -> Result<(), AllocError>
    ensures { OnOk result (string_bytes text.new
        ≡ string_bytes text.old ++ player_line player x y angle mark) }
{
    let fields = [
        ("player ", player as i128),
        (" x ", x as i128),
        (" y ", y as i128),
        (" angle ", angle as i128),
        (" mark ", mark as i128),
    ];
    push_line(text, &fields)
}

/// The line of who is in the world, and nothing for another.
#[tactic(auto, using(crate::proofs::Texts::empty_seat, crate::proofs::Texts::taken_seat))]
fn push_seat(text: &mut String, walk: &Walk, player: u8) -> Result<(), AllocError>
    ensures { OnOk result (string_bytes text.new
        ≡ string_bytes text.old ++ seat_line player (spot_at walk.now player)) }
{
    let (Some(x), Some(y), Some(angle)) = (walk.x(player), walk.y(player), walk.angle(player))
    else {
        return Ok(());
    };
    push_player(text, player, x, y, angle, walk.mark(player))
}

/// The lines of a demo that was fed, with the players where they are at its end. Err where memory is refused.
pub fn text_of_demo(alloc: Global, fed: &Fed<Walk>) -> Result<String, AllocError>
    ensures { IfOk result (λ text. string_bytes text ≡ fed_lines fed.now) }
{
    let mut text = String::new(alloc);
    push_header(&mut text, fed.version, &fed.start, fed.view)?;
    push_players(&mut text, fed.present)?;
    push_size(&mut text, fed.tics, fed.cut, fed.after)?;
    push_seat(&mut text, &fed.world, 0)?;
    push_seat(&mut text, &fed.world, 1)?;
    push_seat(&mut text, &fed.world, 2)?;
    push_seat(&mut text, &fed.world, 3)?;
    Ok(text)
}
