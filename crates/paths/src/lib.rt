// A block of nets and arcs, along which signals run.
#![tactic(auto)]

pub mod blocks;
