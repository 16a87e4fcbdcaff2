mod inbox;
mod posts;
