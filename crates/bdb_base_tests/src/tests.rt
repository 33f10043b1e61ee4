// Tests of libraries, a file for each.
mod base;
mod canon;
mod events;
mod generated;
mod io;
mod model;
mod multi;
mod paths;
mod undo;
