//! What a run leaves in its output: definitions that the top calls of the programs share.
#![tactic(auto)]
