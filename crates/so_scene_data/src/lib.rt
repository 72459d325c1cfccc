//! A scene as the data of its file, and the laws by which its bodies, dispatchers and groups are read again.
//!
//! No program code: what stands here is for contracts and proofs.
#![tactic(auto)]
