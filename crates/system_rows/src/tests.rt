// The adapters over a runtime that plays the system's faults.
mod disk;
mod files;
mod medias;
mod standard;
