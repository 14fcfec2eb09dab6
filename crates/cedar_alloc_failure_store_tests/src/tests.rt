// Tests of the program's functions and of lists of calls on stores.
mod commands;
mod lines;
mod replays;
mod runs;
mod stores;
mod talks;
