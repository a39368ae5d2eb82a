// The tests, and what they are made of.
mod checks;
mod devices;
mod full;
mod jobs;
mod last_values;
mod listings;
mod long;
mod long_plans;
mod parametric_runs;
mod plans;
mod random_plans;
mod refused;
mod store;
mod verdicts;
