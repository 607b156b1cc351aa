// The objects in memory.
mod flashes;
mod streams;
