// The tests, and what they are made of.
mod basis_decks;
mod cards;
mod combinations;
mod decks;
mod faults;
mod files;
mod limits;
mod memory;
mod names;
mod numbers;
mod problems;
mod programs;
mod set_faults;
mod words_of_cards;
