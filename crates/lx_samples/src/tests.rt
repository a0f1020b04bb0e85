mod classes;
mod files;
mod graphs;
mod long;
mod numbers;
mod timing;
mod windows;
