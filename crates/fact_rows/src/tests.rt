mod fixtures;
mod moves;
mod names;
mod plan;
mod rules;
mod schema;
mod selectors;
mod sketches;
