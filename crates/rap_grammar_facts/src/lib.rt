//! What is computed of each script: `proofs/` has a file for each module of scripts, written by the script `facts`.
#![tactic(auto)]
