//! The calls that locksteps and links have in common.

ghost use Rattle.std.specs.Prelude.{◌≡◌, None, Bool, length, take, drop};
ghost use Rattle.dn_machine.specs.declared.answers.Made.{Made as Making};
ghost use Rattle.dn_tic.specs.declared.input.Input.TheVariants.{Given};
ghost use Rattle.dn_packet.specs.Written.{IsWritten};
ghost use Rattle.zirmegat.specs.Calls.{link_of, lockstep_of, When};
ghost use Rattle.zirmegat.specs.Commands.{given_in};
ghost use Rattle.zirmegat.specs.Faults.{done_code};
ghost use Rattle.zirmegat.specs.Going.{Builds, Quits, Runs};
ghost use Rattle.zirmegat.specs.Links.{BuildsOf, Moves, RunsOf};
ghost use Rattle.zirmegat.specs.Locksteps.{made_code, TellsRun};
ghost use Rattle.zirmegat.specs.Rows.{no_row};

use crate::bytes;
use crate::commands::{CommandFields, given};
use crate::fault::{Fault, done_code};
use crate::handle::Handle;
use crate::lockstep_answers::made_code;
use crate::rows::{RowFields, next_of_four, run_code};

/// Takes this command for the next tic. A link owes one for which there is no room, and what it owed before is
/// dropped. A forward of -128 counts as -127.
#[unsafe(no_mangle)]
pub extern "C" fn zmg_node_give(node: &mut Handle, command: &CommandFields) -> u32
    ensures lockstep { When lockstep_of node.old node.new
        (λ n k. (made : Making) × (result ≡ made_code made) × Builds (Given (given_in command.now)) n k made) }
    ensures link { When link_of node.old node.new
        (λ n k. (made : Making) × (result ≡ made_code made) × BuildsOf (Given (given_in command.now)) n k made) }
    ensures other { lockstep_of node.old ≡ None → link_of node.old ≡ None
        → (result ≡ 1) × (node.new ≡ node.old) }
{
    if let Some(held) = node.lockstep() {
        return made_code(held.give(given(command)));
    }
    match node.link() {
        Some(held) => made_code(held.give(given(command))),
        None => Fault::Handle.code(),
    }
}

/// Runs the next tic by the four players' marks in the caller's world as it stands. Where it was run, `row` has
/// the whole commands by which the world goes on. A link compares no mark of players who are given up.
#[unsafe(no_mangle)]
pub extern "C" fn zmg_node_run(node: &mut Handle, marks: &[i16; 4], row: &mut RowFields) -> u32
    ensures lockstep { When lockstep_of node.old node.new
        (λ n k. TellsRun (Runs marks.now n k) n row.new result) }
    ensures link { When link_of node.old node.new (λ n k. TellsRun
        (λ ran told. Moves (λ old new. RunsOf marks.now n.link old new ran told) (λ old new. new ≡ old) n k)
        n.link.node row.new result) }
    ensures other { lockstep_of node.old ≡ None → link_of node.old ≡ None
        → (result ≡ 0) × (row.new ≡ no_row) × (node.new ≡ node.old) }
{
    let mut moves = [None; 4];
    if let Some(held) = node.lockstep() {
        let commands = next_of_four(held);
        let ran = held.run_into(marks, &mut moves);
        *row = RowFields::of(ran, &moves, &commands);
        return run_code(ran);
    }
    match node.link() {
        Some(held) => {
            let commands = next_of_four(held.lockstep());
            let ran = held.run_into(marks, &mut moves);
            *row = RowFields::of(ran, &moves, &commands);
            run_code(ran)
        }
        None => {
            *row = RowFields::NONE;
            0
        }
    }
}

/// Ends the node, if it had not ended.
#[unsafe(no_mangle)]
pub extern "C" fn zmg_node_quit(node: &mut Handle) -> u32
    ensures lockstep { When lockstep_of node.old node.new
        (λ n k. (quit : Bool) × (result ≡ done_code quit) × Quits n k quit) }
    ensures link { When link_of node.old node.new (λ n k. (quit : Bool) × (result ≡ done_code quit)
        × Moves (λ old new. Quits old new quit) (λ old new. new ≡ old) n k) }
    ensures other { lockstep_of node.old ≡ None → link_of node.old ≡ None
        → (result ≡ 1) × (node.new ≡ node.old) }
{
    if let Some(held) = node.lockstep() {
        return done_code(held.quit());
    }
    match node.link() {
        Some(held) => done_code(held.quit()),
        None => Fault::Handle.code(),
    }
}

/// Copies its demo so far from this byte on, as many bytes as there is room for, and returns how many.
#[unsafe(no_mangle)]
pub extern "C" fn zmg_node_demo(node: &mut Handle, from: usize, out: &mut [u8]) -> usize
    ensures lockstep { When lockstep_of node.old node.new (λ n k. (k ≡ n)
        × IsWritten (take (length out.old) (drop from n.demo.bytes)) out.old out.new result) }
    ensures link { When link_of node.old node.new (λ n k. (k ≡ n)
        × IsWritten (take (length out.old) (drop from n.link.node.demo.bytes)) out.old out.new result) }
    ensures other { lockstep_of node.old ≡ None → link_of node.old ≡ None
        → (result ≡ 0) × (out.new ≡ out.old) × (node.new ≡ node.old) }
{
    if let Some(held) = node.lockstep() {
        return bytes::write_from(held.demo(), from, out);
    }
    match node.link() {
        Some(held) => bytes::write_from(held.lockstep().demo(), from, out),
        None => 0,
    }
}
