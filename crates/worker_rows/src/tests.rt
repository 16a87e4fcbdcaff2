mod gates;
mod workers;
