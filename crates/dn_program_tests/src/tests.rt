//! Tests of the program: what its subcommands read and print, its runs and words that they do not show, what is made
//! of a command line, and keys.

mod keys;
mod readings;
mod runs;
mod words;
