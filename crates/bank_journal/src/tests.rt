// The journal over a flash in memory.
mod cuts;
mod images;
mod lives;
