//! Runs of control programs, and what a job may be answered. Definitions alone.
#![tactic(auto)]
