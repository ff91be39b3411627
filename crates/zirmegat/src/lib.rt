//! Zirmegat for callers in C: sessions, demos and keys; and the parts of a session, which are links, locksteps
//! and packets as fields.
//!
//! The headers are bindings/c/zirmegat.h and zirmegat_parts.h. Every number and every byte is tested here, and
//! a handle of another kind is refused. A caller owes valid pointers, the use of a handle by one thread at a
//! time, and the marks of its own world.
#![tactic(auto)]

mod bytes;
mod commands;
mod configs;
mod demo_facts;
mod demos;
mod fault;
mod handle;
mod held;
mod keep;
mod key_text;
mod lines;
mod link_answers;
mod link_calls;
mod lockstep_answers;
mod lockstep_calls;
mod loose;
mod node_calls;
mod node_player;
mod node_state;
mod nodes;
mod over;
mod packets;
mod phases;
mod rows;
mod session_calls;
mod session_events;
mod session_player;
mod session_run;
mod session_state;
mod sessions;
mod settings;
mod slot;
mod terms;
mod version;
