mod pieces;
mod reader;
mod runs;
mod stepper;
mod timing;
mod windows;
