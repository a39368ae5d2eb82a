//! Sources and sinks of bytes, tried with reads and writes that fail, and over real files.
#![tactic(auto)]

#[cfg(test)]
mod devices;
#[cfg(test)]
mod files;
#[cfg(test)]
mod listed;
