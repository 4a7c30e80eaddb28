// The C interface: what the panel's firmware links. include/panel.h declares these functions for C, and bindings/rust
// wraps them for Rust. A slice crosses as a pointer and a length in elements, an answer as a lent block of words whose
// first is the number. Each function hands its slices on to the entry point of the same purpose and writes down what
// that answers; the plain meaning is that call's outcome (meaning, Rules/Calls and Rules/Tables), as words
// (specs/Words). Nothing is decided here but a truth value that is neither 0 nor 1.
#![tactic(auto)]

mod node_lists;
mod truth_tables;
