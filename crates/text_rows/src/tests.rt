mod fixtures;
mod json;
mod records;
mod refusals;
mod reports;
mod settings;
mod words;
