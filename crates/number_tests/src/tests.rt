// The tests, and what they are made of.
mod arithmetic;
mod made;
mod printed;
mod sums;
mod vectors;
