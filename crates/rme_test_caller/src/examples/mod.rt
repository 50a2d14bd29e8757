//! How the service is used: each file has one way, as a caller would write it. Begin with `worlds.rt`.

mod cut_sessions;
mod images;
mod sessions;
mod supervised;
mod threads;
mod transcripts;
mod worlds;
